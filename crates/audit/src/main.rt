// The audit of image files of up to a MiB, which fits in the usual stack of 8 MiB. For larger files ./audit proves and builds the same
// with 16777216 for 1048576, and runs it with a larger stack.
#![tactic(auto)]

ghost use Rattle.std.specs.Prelude.{◌≡◌, length};

use std::io;

fn room() -> [u8; 1048576]
    ensures { 1048576 ≡ length result }
{
    [0; 1048576]
}

fn main(rt: HostRuntime) -> io::Result<()> {
    let mut file = room();
    auditing::run(&rt, &mut rt.stdin(), &mut file)
}
