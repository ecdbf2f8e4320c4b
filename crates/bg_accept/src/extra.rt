//! Sections that aren't required.
ghost use Rattle.std.specs.Prelude.{◌≡◌, map, None};
ghost use Rattle.bg_text.specs.Views.{option_of};
ghost use Rattle.bg_cert.specs.Walks.{has};
ghost use Rattle.bg_certtext.specs.Views.{section_of};
ghost use Rattle.bg_accept.specs.Sections.{is_behind, extra_behind};
ghost use Rattle.bg_accept.specs.Tables.{numbers_in, referred, is_required_in};

use crate::kept::is_required;
use bg_certtext::Section;
use bg_places::Place;

/// Whether a section comes behind another one's numbers, if there is one.
fn is_behind(before: Option<&Section>, section: &Section) -> bool
    ensures { result ≡ is_behind (option_of referred before.entry) (section_of section.now) }
{
    match before {
        None => true,
        Some(other) => {
            other.implementation < section.implementation
                || (other.implementation == section.implementation && other.place < section.place)
        }
    }
}

/// The numbers of the first section that is of no required place, or not behind the one before it.
pub fn first_extra(set: &[bool], all: &[Vec<Place>], sections: &[Section]) -> Option<(u128, u128)>
    ensures { result ≡ option_of numbers_in (extra_behind (is_required_in (has set.now) all.now) None (map section_of sections.now)) }
{
    let mut before = None;
    for section in sections {
        if !(is_behind(before, section)
            && is_required(set, all, section.implementation, section.place))
        {
            return Some((section.implementation, section.place));
        }
        before = Some(section);
    }
    None
}
