//! A whole listing, line by line, and the program that it is one of.

ghost use Rattle.std.specs.Prelude.{◌≡◌, ◌≢◌, [], length, IsTrue, IfOk, IfErr, OnOk};
ghost use Rattle.dex_base.specs.Fault.{memory};
ghost use Rattle.program_types.specs.View.{program};
ghost use Rattle.listing_parse.specs.inner.View.{state};
ghost use Rattle.listing_lines.specs.Splitting.{lines};
ghost use Rattle.listing_parse.specs.inner.Named.{StateIsNamed};
ghost use Rattle.listing_parse.specs.Text as spec;
ghost use Rattle.listing_parse.specs.Text.{begin, Reads, IsListing, IsBadLine, ListingBreaks};
ghost use Rattle.listing_parse.specs.inner.Text.{IsFinished, IsUnfinished};
ghost use Rattle.listing_parse.specs.inner.ReadingView.{reading};

use crate::block::Block;
use crate::draft::Draft;
use crate::lines::{Scratch, read_line};
use crate::reading::Reading;
use bumpalo::Bump;
use dex_base::{Fault, Seed, fault};
use listing_lines::{Form, Labels, split_line};
use listing_slots::Spelled;
use program_rules::well_formed_named_seeded;
use program_types::Program;
use std::alloc::Global;

/// How many bytes of a listing there are for each name that is remembered, so that names take no more than a quarter of it.
const BYTES_A_NAME: usize = 256;

/// No more names than these are remembered: further places cost memory and cache, and save no time.
const MOST_NAMES: usize = 16384;

/// Nothing was read.
#[tactic(auto, unfolding(crate::specs::inner::ReadingView::reading))]
fn begin<'a, 't>(alloc: Global, seed: Seed, arena: &'a Bump) -> Reading<'a, 't>
    ensures { reading result ≡ begin }
{
    Reading {
        form: Form::One,
        labels: Labels::new(alloc, seed),
        passed: 0,
        draft: Draft::new(alloc, seed, arena),
    }
}

/// What the lines of a text make, and whether it is known that a file can have what its instructions name.
#[derive(Drop)]
struct Listed<'a> {
    draft: Draft<'a>,
    named: bool,
}

/// Reads all lines of a text; else the lowest that is refused.
fn read_lines<'a>(
    alloc: Global,
    seed: Seed,
    arena: &'a Bump,
    text: &[u8],
) -> Result<Listed<'a>, Fault>
    ensures ok { IfOk result (λ l. (r : spec.Reading) × Reads begin (lines text.now) [] r × (r.base ≡ state l.draft)) }
    ensures number { IfOk result (λ l. l.draft.lines ≡ length (lines text.now)) }
    ensures named { IfOk result (λ l. IsTrue l.named → StateIsNamed (state l.draft)) }
    ensures err { IfErr result (λ e. e ≢ memory → IsBadLine (lines text.now) e.code e.place) }
{
    let mut scratch = Scratch {
        arena,
        words: Vec::new(alloc),
        slots: Vec::new(alloc),
        word_values: Vec::new(alloc),
        spelled: Spelled::new(alloc, seed, (text.len() / BYTES_A_NAME).min(MOST_NAMES))?,
    };
    let mut listing = begin(alloc, seed, arena);
    let mut rest = text;
    while let Some((line, after)) = split_line(rest) {
        read_line(&mut scratch, &mut listing, line, after)?;
        rest = after;
    }
    Ok(Listed {
        draft: listing.draft,
        named: scratch.spelled.is_valid(),
    })
}

/// Whether a listing may end after these lines; else 106 where a block is open, 105 where a target is no instruction of its code.
fn check_end(draft: &Draft<'_>) -> Result<(), Fault>
    ensures ok { OnOk result (IsFinished (state draft.now)) }
    ensures err { IfErr result (λ e. IsUnfinished (state draft.now) e.code e.place) }
{
    match draft.block {
        Block::Top => match draft.late {
            Some(place) => Err(Fault::at(fault::LINE_TARGET, place)),
            None => Ok(()),
        },
        _ => Err(Fault::at(fault::LINE_NOT_ENDED, draft.lines)),
    }
}

/// The program of a text, or why it is none.
fn read_program<'a>(
    alloc: Global,
    seed: Seed,
    arena: &'a Bump,
    text: &[u8],
) -> Result<Program<'a>, Fault>
    ensures ok { IfOk result (λ p. IsListing text.now (program p)) }
    ensures err { IfErr result (λ e. e ≢ memory → ListingBreaks text.now e.code e.place) }
{
    let listed = read_lines(alloc, seed, arena, text)?;
    let Listed { draft, named } = listed;
    check_end(&draft)?;
    let whole = Program {
        classes: draft.into_classes(),
    };
    well_formed_named_seeded(alloc, seed, &whole, named)?;
    Ok(whole)
}

/// Returns the program of a listing: the only one that it is a listing of. It is well formed: it keeps the rules of every file's
/// program, and each number fits its type. `IsListing` defines a listing by the state after each line; `a_listing_is_its_lines` is the
/// law that this is `ListingText`, the lines of a program as in docs/LISTING.md.
///
/// The names, slices and values of the program lie in the arena. The lowest line that is at fault by itself is refused, or
/// else a text that ends inside a block (106); where there is none, the lowest line with a target that is no instruction of
/// its code (105); and then the first class that breaks a rule. A fault's place is a line's number, from 1, and of a
/// program's rule the class's, from 0.
///
/// ```
/// use bumpalo::Bump;
/// use dex_listing::parse;
///
/// let arena = Bump::new(alloc);
/// let listed = parse(alloc, &arena, b"dex 035 listing 2\nclass LA; 0x1\nend class\n")?;
/// assert_eq!(rt; listed.classes.len(), 1);
/// assert!(rt; parse(alloc, &arena, b"dex 035 listing 2\nclass A 0x1\n").is_err()); // 101 Name at 2
/// ```
pub fn parse<'a>(alloc: Global, arena: &'a Bump, text: &[u8]) -> Result<Program<'a>, Fault>
    ensures ok { IfOk result (λ p. IsListing text.now (program p)) }
    ensures one { IfOk result (λ p. (q : _) → IsListing text.now q → q ≡ program p) }
    ensures err { IfErr result (λ e. e ≢ memory → ListingBreaks text.now e.code e.place) }
    ensures none { IfErr result (λ e. e ≢ memory → (q : _) → ¬ IsListing text.now q) }
{
    parse_seeded(alloc, Seed::fixed(), arena, text)
}

/// Returns the program of a listing, as `parse` does. Hashes begin with this seed, on which no result depends: a random one for untrusted
/// listings, whose names could be chosen to collide with a known seed.
///
/// ```
/// use bumpalo::Bump;
/// use dex_base::Seed;
/// use dex_listing::parse_seeded;
///
/// let arena = Bump::new(alloc);
/// let listed = parse_seeded(alloc, Seed::new(0x5eed), &arena, b"dex 035 listing 2\n")?;
/// assert_eq!(rt; listed.classes.len(), 0);
/// ```
pub fn parse_seeded<'a>(
    alloc: Global,
    seed: Seed,
    arena: &'a Bump,
    text: &[u8],
) -> Result<Program<'a>, Fault>
    ensures ok { IfOk result (λ p. IsListing text.now (program p)) }
    ensures one { IfOk result (λ p. (q : _) → IsListing text.now q → q ≡ program p) }
    ensures err { IfErr result (λ e. e ≢ memory → ListingBreaks text.now e.code e.place) }
    ensures none { IfErr result (λ e. e ≢ memory → (q : _) → ¬ IsListing text.now q) }
{
    read_program(alloc, seed, arena, text)
}
