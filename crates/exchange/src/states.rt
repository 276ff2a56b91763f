// A state in an answer: the items that differ from the default, their count in front.
use crate::line::Line;
use places::SectionAddress;
use vm::{Cr, Gpr, GprValue, Held, VM};

fn is_unknown(v: GprValue) -> bool {
    matches!(v, GprValue::Unknown)
}

fn is_nowhere(m: Option<SectionAddress>) -> bool {
    matches!(m, None)
}

fn is_blank(g: Gpr) -> bool {
    is_unknown(g.value) && is_nowhere(g.hi_addr) && is_nowhere(g.lo_addr)
}

fn is_unset(c: Cr) -> bool {
    is_unknown(c.left) && is_unknown(c.right) && !c.signed
}

// A state: how many items it has, and the items.
pub fn state(line: &mut Line, s: VM) {
    line.count(items(&s));
    for (item, g) in (0..32).zip(&s.gpr) {
        if !is_blank(*g) {
            line.word(item);
            line.register(*g);
        }
    }
    for (item, c) in (32..40).zip(&s.cr) {
        if !is_unset(*c) {
            line.word(item);
            line.compare(*c);
        }
    }
    held(line, 40, s.lr);
    held(line, 41, s.ctr);
}

// How many items differ from the default.
fn items(s: &VM) -> usize {
    let registers = s.gpr.iter().filter(|g| !is_blank(**g)).count();
    let compares = s.cr.iter().filter(|c| !is_unset(**c)).count();
    let held = [s.lr, s.ctr]
        .iter()
        .filter(|h| !is_unknown(h.value))
        .count();
    registers + compares + held
}

fn held(line: &mut Line, item: u32, h: Held) {
    if !is_unknown(h.value) {
        line.word(item);
        line.value(h.value);
    }
}
