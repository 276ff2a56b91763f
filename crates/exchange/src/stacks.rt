// The states that a stack holds, from the bottom up.
ghost use Rattle.std.specs.Prelude.{◌<◌};
ghost use Rattle.stack.specs.Stack.{Stack};

use crate::line::Line;
use crate::states;

// How many words so many slots take.
pub fn words_of(slots: u32) -> usize {
    (slots % 0x1_0000) as usize * (slot::SLOT_WORDS + 1) + 2
}

// How many states, then each as a place and a state.
pub fn held(stack: &[u32], count: usize, line: &mut Line) {
    if stack::judge::is_stack(stack, count) {
        all(stack, count, line);
    }
}

fn all(stack: &[u32], count: usize, line: &mut Line)
    requires { Stack stack.now count }
{
    line.count(count);
    for i in 0..count {
        one(stack, i + 1, line);
    }
}

fn one(stack: &[u32], n: usize, line: &mut Line)
    requires { (Stack stack.now n) × (0 < n) }
{
    line.place(stack::top_place(stack, n));
    states::state(line, stack::top_state(stack, n));
}
