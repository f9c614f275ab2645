//! Laws of the definitions, each the contract of a function that does nothing else.

ghost use Rattle.std.specs.Prelude.{◌≡◌, ◌↔◌, ℕ, List};
ghost use Rattle.dex_container.specs.Frame.{IsFramed, IsSection};
ghost use Rattle.dex_container.specs.Faults.{FrameBreaks, IsFrameFault};
ghost use Rattle.dex_base.specs.declared.fault.Fault.{Fault};

use crate::opening::open;

/// Bytes are framed if and only if header, map and checksums have no fault.
pub fn framed_without_fault(bytes: &[u8])
    ensures { IsFramed bytes.now ↔ ((code place : ℕ) → ¬ FrameBreaks bytes.now code place) }
{
    match open(bytes) {
        Ok(_) => {}
        Err(_) => {}
    }
}

/// Framed bytes break no rule of header, map and checksums.
#[tactic(auto, using(crate::proofs::Framed::framed_clear))]
pub fn clear_where_framed()
    ensures { (bytes : List ℕ) → IsFramed bytes → (code place : ℕ) → ¬ FrameBreaks bytes code place }
{}

/// Header, map and checksums have one fault: one number, at one place.
#[tactic(auto, using(crate::proofs::OneFault::one_fault))]
pub fn one_fault()
    ensures { (b : List ℕ) (e f : Fault) → IsFrameFault b e → IsFrameFault b f → e ≡ f }
{}

/// A kind of data item has one section.
pub fn section_is_one()
    ensures { (b : List ℕ) → IsFramed b → (kind begin end first last : ℕ) → IsSection b kind begin end → IsSection b kind first last → (begin ≡ first) × (end ≡ last) }
{}
