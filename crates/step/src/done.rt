// One step by value: the effect carried out on a state that is handed over and back.
ghost use Rattle.std.specs.Prelude.{◌≡◌};
ghost use Rattle.step.specs.Step.{goes_on, access_result, accessed, cleared_of, step_of};

use crate::{Effect, StepResult, Stepped, arms, ways};
use decoder::Writes;
use image::Tables;
use places::{RelocationTarget, SectionAddress};
use vm::register::set_direct;
use vm::{Gpr, GprValue, Held, VM};
use words::field;

fn goes_on(s: VM) -> Stepped
    ensures { result ≡ goes_on s }
{
    Stepped {
        result: StepResult::Continue,
        vm: s,
        other: s,
    }
}

// The result of a load or store through rA.
pub fn access_result(seen: Option<RelocationTarget>, source: Gpr, w: u32) -> StepResult
    ensures { result ≡ access_result seen source w }
{
    match seen {
        Some(t) => StepResult::LoadStore {
            address: t,
            source,
            source_reg: field::ra(w) as u8,
        },
        None => StepResult::Continue,
    }
}

fn accessed_by(seen: Option<RelocationTarget>, source: Gpr, w: u32, s: VM) -> Stepped
    ensures { result ≡ accessed seen source w s }
{
    Stepped {
        result: access_result(seen, source, w),
        vm: s,
        other: s,
    }
}

// The registers that the word writes become Unknown.
fn clear(kind: Writes, w: u32, s: VM) -> VM
    ensures { result ≡ cleared_of kind w s }
{
    let mut t = s;
    let d = field::rd(w);
    let a = field::ra(w);
    let g = set_direct(GprValue::Unknown);
    match kind {
        Writes::Nothing => t,
        Writes::Rd => {
            t.gpr[d] = g;
            t
        }
        Writes::Ra => {
            t.gpr[a] = g;
            t
        }
        Writes::RdRa => {
            t.gpr[d] = g;
            t.gpr[a] = g;
            t
        }
    }
}

#[tactic(auto, unfolding(crate::specs::Step::done_of, crate::specs::Step::step_of))]
pub fn step_word(im: &Tables<'_>, at: SectionAddress, w: u32, s: VM) -> Stepped
    ensures { result ≡ step_of im.now.words.now at w s }
{
    let mut t = s;
    let d = field::rd(w);
    let a = field::ra(w);
    let b = field::rb(w);
    let e = arms::effect(im, at, w, decoder::decode(w), t.gpr[d], t.gpr[a], t.gpr[b]);
    match e {
        Effect::Nothing => goes_on(t),
        Effect::SetD(g) => {
            t.gpr[d] = g;
            goes_on(t)
        }
        Effect::SetA(g) => {
            t.gpr[a] = g;
            goes_on(t)
        }
        Effect::Compare(c, g) => {
            let k = field::crfd(w) as usize;
            t.cr[k] = c;
            t.gpr[a] = g;
            goes_on(t)
        }
        Effect::ToLr(v) => {
            let h = Held { value: v };
            t.lr = h;
            goes_on(t)
        }
        Effect::ToCtr(v) => {
            let h = Held { value: v };
            t.ctr = h;
            goes_on(t)
        }
        Effect::FromLr => {
            let h = t.lr;
            let v = h.value;
            t.gpr[d] = set_direct(v);
            goes_on(t)
        }
        Effect::FromCtr => {
            let h = t.ctr;
            let v = h.value;
            t.gpr[d] = set_direct(v);
            goes_on(t)
        }
        Effect::Load { base, seen } => {
            t.gpr[a] = base;
            t.gpr[d] = set_direct(GprValue::Unknown);
            accessed_by(seen, base, w, t)
        }
        Effect::Store { base, seen } => {
            t.gpr[a] = base;
            accessed_by(seen, base, w, t)
        }
        Effect::Clear(kind) => goes_on(clear(kind, w, t)),
        Effect::Leaves(way) => {
            let k = (field::bi(w) / 4) as usize;
            let h = t.ctr;
            let v = h.value;
            let l = ways::leave(im, at, w, way, v, t.cr[k]);
            ways::left(l, at, t)
        }
    }
}
