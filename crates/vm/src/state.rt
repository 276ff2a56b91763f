// States made new, made for the two sides of a call, and changed as a whole.
// A state always has thirty-two register records and eight compare records.
ghost use Rattle.std.specs.Prelude.{◌≡◌, false, ◌||◌, ◌<◌, eqb};
ghost use Rattle.words.specs.Choice.{pick};
ghost use Rattle.vm.specs.Values.{on_mark};
ghost use Rattle.vm.specs.States.{fresh, bases_of, with_base, keep_value, link_of, saved_from, return_of, with_result};

use crate::register::set_direct;
use crate::{Cr, Gpr, GprValue, Held, VM};

// All Unknown.
pub fn new() -> VM
    ensures { result ≡ fresh }
{
    let g = set_direct(GprValue::Unknown);
    let c = Cr {
        left: GprValue::Unknown,
        right: GprValue::Unknown,
        signed: false,
    };
    let h = Held {
        value: GprValue::Unknown,
    };
    let gs = [g; 32];
    let cs = [c; 8];
    VM {
        gpr: gs,
        cr: cs,
        lr: h,
        ctr: h,
    }
}

fn with_base(t: VM, i: usize, base: Option<u32>) -> VM
    requires { i < 32 }
    ensures { result ≡ with_base t i base }
{
    let mut u = t;
    match base {
        Some(n) => {
            u.gpr[i] = set_direct(GprValue::Constant(n));
            u
        }
        None => u,
    }
}

// All Unknown but r2 and r13, where a number is given.
pub fn new_with_base(sda2_base: Option<u32>, sda_base: Option<u32>) -> VM
    ensures { result ≡ bases_of sda2_base sda_base }
{
    with_base(with_base(new(), 2, sda2_base), 13, sda_base)
}

// Whether register i is a dedicated one: r2, r13, and r1 where it is asked for.
fn is_dedicated(i: usize, one: bool) -> bool
    ensures { result ≡ pick (eqb i 1) one (eqb i 2 || eqb i 13) }
{
    if i == 1 { one } else { (i == 2) | (i == 13) }
}

// The values alone of the dedicated registers. By a loop, since a register that is named by a number would have every copy of the
// state made field by field.
fn dedicated(s: VM, one: bool) -> VM
    ensures { result ≡ keep_value (keep_value (pick one (keep_value fresh s 1) fresh) s 2) s 13 }
{
    let mut t = new();
    for i in 0..32 {
        if is_dedicated(i, one) {
            t.gpr[i] = set_direct(s.gpr[i].value);
        }
    }
    t
}

// Into a called function: only r2 and r13 are kept.
pub fn clone_for_link(s: VM) -> VM
    ensures { result ≡ link_of s }
{
    dedicated(s, false)
}

// The registers from 14 up are those of s.
fn copy_saved(t: VM, s: VM) -> VM
    ensures { result ≡ saved_from t s }
{
    let mut u = t;
    u.gpr[14..].copy_from_slice(&s.gpr[14..]);
    u
}

// Back from a called function: dedicated registers keep their value, nonvolatile ones their record.
pub fn clone_for_return(s: VM) -> VM
    ensures { result ≡ return_of s }
{
    copy_saved(dedicated(s, true), s)
}

// Whether the register holds the left side of what the field records.
fn is_marked(g: Gpr, crf: u8) -> bool
    ensures { result ≡ on_mark g.value (λ j. eqb j crf) false }
{
    matches!(g.value, GprValue::ComparisonResult(j) if j == crf)
}

// Every register marked with the field gets the value, its places kept.
pub fn set_comparison_result(s: VM, value: GprValue, crf: u8) -> VM
    ensures { result ≡ with_result s value crf }
{
    let mut t = s;
    for g in t.gpr.iter_mut() {
        if is_marked(*g, crf) {
            g.value = value;
        }
    }
    t
}
