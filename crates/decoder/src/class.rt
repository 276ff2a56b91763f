// The classes of operations that the Rust asks for, by its names.
// Each is a list of operations in specs/Class.antt.
ghost use Rattle.std.specs.Prelude.{◌≡◌};
ghost use Rattle.decoder.specs.Class.{is_load, is_loadf, is_store, is_storef, is_load_store, is_update};

use crate::Op;

// Whether the operation loads a general register at a displacement.
pub fn is_load_op(op: Op) -> bool
    ensures { result ≡ is_load op }
{
    matches!(
        op,
        Op::Lbz | Op::Lbzu | Op::Lha | Op::Lhau | Op::Lhz | Op::Lhzu | Op::Lmw | Op::Lwz | Op::Lwzu
    )
}

// Whether it loads a floating register.
pub fn is_loadf_op(op: Op) -> bool
    ensures { result ≡ is_loadf op }
{
    matches!(op, Op::Lfd | Op::Lfdu | Op::Lfs | Op::Lfsu)
}

// Whether it stores a general register.
pub fn is_store_op(op: Op) -> bool
    ensures { result ≡ is_store op }
{
    matches!(
        op,
        Op::Stb | Op::Stbu | Op::Sth | Op::Sthu | Op::Stmw | Op::Stw | Op::Stwu
    )
}

// Whether it stores a floating register.
pub fn is_storef_op(op: Op) -> bool
    ensures { result ≡ is_storef op }
{
    matches!(op, Op::Stfd | Op::Stfdu | Op::Stfs | Op::Stfsu)
}

// Whether it is any of these.
pub fn is_load_store_op(op: Op) -> bool
    ensures { result ≡ is_load_store op }
{
    is_load_op(op) || is_loadf_op(op) || is_store_op(op) || is_storef_op(op)
}

// Whether it is a load or store that also writes its address to rA. The Rust's list names the
// indexed update forms too: these are Other here, and their rows say what they write.
pub fn is_update_op(op: Op) -> bool
    ensures { result ≡ is_update op }
{
    matches!(
        op,
        Op::Lbzu
            | Op::Lfdu
            | Op::Lfsu
            | Op::Lhau
            | Op::Lhzu
            | Op::Lwzu
            | Op::Stbu
            | Op::Stfdu
            | Op::Stfsu
            | Op::Sthu
            | Op::Stwu
    )
}
