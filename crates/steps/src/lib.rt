// No code: 01's machine as definitions, and the laws of a step. `machine` is the code.
#![tactic(auto)]
