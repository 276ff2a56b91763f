// What a step found, as kind 7 answers it.
use crate::line::Line;
use crate::states::state;
use step::{Branch, Refusal, StepResult, Stepped};
use vm::VM;

fn refusal(why: Refusal) -> u32 {
    match why {
        Refusal::BrokenImage => 1,
        Refusal::NotCode => 2,
        Refusal::Misaligned => 3,
    }
}

// A step's answer: why it was refused, or 0 and what was found.
pub fn stepped(line: &mut Line, r: Stepped, before: VM) {
    match r.result {
        StepResult::Refused(why) => {
            line.word(refusal(why));
            state(line, before);
        }
        _ => {
            line.word(0);
            found(line, r, before);
        }
    }
}

// The outcome and what follows it; of Illegal, Jump and Branch the state after is the one before.
pub fn found(line: &mut Line, r: Stepped, before: VM) {
    match r.result {
        StepResult::Refused(_) => (),
        StepResult::Continue => {
            line.word(0);
            state(line, r.vm);
        }
        StepResult::LoadStore {
            address,
            source,
            source_reg,
        } => {
            line.word(1);
            line.target(address);
            line.register(source);
            line.word(u32::from(source_reg));
            state(line, r.vm);
        }
        StepResult::Illegal => {
            line.word(2);
            state(line, before);
        }
        StepResult::Jump(t) => {
            line.word(3);
            line.branch_target(t);
            state(line, before);
        }
        StepResult::Branch { first, second } => {
            line.word(4);
            branch(line, first, r.vm);
            branch(line, second, r.other);
            state(line, before);
        }
    }
}

fn branch(line: &mut Line, b: Branch, s: VM) {
    line.branch_target(b.target);
    line.flag(b.link);
    state(line, s);
}
