// How many boxes a step leaves.
ghost use Rattle.std.specs.Prelude.{◌≡◌};
ghost use Rattle.effect.specs.Code as code;

use state::BOXES;

// How many boxes are left, of so many open ones, where so many things stand before them.
pub fn boxes_left(leaves: bool, depth: usize, handed: usize) -> usize
    ensures { result ≡ code.boxes_left leaves depth handed }
{
    if leaves && handed == 0 {
        return depth.min(BOXES);
    }
    0
}
