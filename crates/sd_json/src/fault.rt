ghost use Rattle.std.specs.Prelude.{◌≡◌, option_map};
ghost use Rattle.std.specs.List.{find};
ghost use Rattle.std.specs.BTreeMap.{get_by_text};
ghost use Rattle.sd_json.specs.Entries.{has_fault};

use crate::entries::Entries;
use crate::entry::Entry;
use sd_list::Text;

/// What may be wrong with the entry of a name.
#[derive(Clone, Copy, Drop)]
pub(crate) enum Fault {
    /// There is none.
    Missing,
    /// It is no whole number.
    NoSize,
    /// A leaf of it is no whole number.
    NoNumber,
    /// It has no shape.
    Ragged,
}

impl Fault {
    /// Whether this is wrong with what was found under a name.
    fn is_of(self, found: Option<&Entry>) -> bool
        ensures { result ≡ has_fault self (option_map (λ entry. entry.now) found.entry) }
    {
        let Some(entry) = found else {
            return matches!(self, Fault::Missing);
        };
        match self {
            Fault::Missing => false,
            Fault::NoSize => entry.size().is_none(),
            Fault::NoNumber => entry.numbers.is_none(),
            Fault::Ragged => entry.shape.is_none(),
        }
    }

    /// The first of these names with this fault.
    #[inline(never)]
    pub(crate) fn first<'n>(self, entries: &Entries, names: &'n [Text]) -> Option<&'n Text>
        ensures { option_map (λ name. name.now) result ≡ find (λ name. has_fault self (get_by_text entries.now name)) names.now }
    {
        for name in names {
            if self.is_of(entries.get(name.as_str())) {
                return Some(name);
            }
        }
        None
    }
}
