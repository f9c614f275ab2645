//! The section of one kind of data item, and its bytes from an offset on.
ghost use Rattle.std.specs.Prelude.{◌≡◌, ◌-◌, ◌+◌, ◌<◌, ◌≤◌, IfSome, IfNone, take, drop, length};
ghost use Rattle.dex_container.specs.Frame.{IsFramed};
ghost use Rattle.dex_container.specs.Where.{IsSectionOf, IsInSection};

use crate::opening::Sections;

/// Where the section begins and ends, in bytes. A kind without a section has an empty one, which holds no place.
#[derive(Clone, Copy)]
pub struct Section {
    pub begin: u32,
    pub end: u32,
}

/// The section of a kind.
pub fn section_of(sections: &Sections<'_>, kind: u16) -> Section
    ensures value { IsSectionOf sections.now kind result }
    ensures framed { IsFramed sections.now }
{
    sections.framed();
    match sections.section(kind) {
        Some((begin, end)) => Section { begin, end },
        None => Section { begin: 0, end: 0 },
    }
}

/// The bytes of the section from a place on, if the byte at that place lies in it.
pub fn bytes_from<'b>(
    sections: &Sections<'b>,
    kind: u16,
    section: Section,
    place: u32,
) -> Option<&'b [u8]>
    requires { IsSectionOf sections.now kind section }
    ensures some { IfSome result (λ _. IsInSection sections.now kind place) }
    ensures low { IfSome result (λ _. section.begin ≤ place) }
    ensures high { IfSome result (λ _. place < section.end) }
    ensures value { IfSome result (λ rest. rest.now ≡ take (section.end - place) (drop place sections.now)) }
    ensures size { IfSome result (λ rest. place + length rest.now ≡ section.end) }
    ensures none { IfNone result (¬ IsInSection sections.now kind place) }
{
    if place < section.begin {
        return None;
    }
    if section.end <= place {
        return None;
    }
    Some(&sections.bytes()[place as usize..section.end as usize])
}
