ghost use Rattle.std.specs.Prelude.{◌≡◌, Some, OnOk};
ghost use Rattle.serde_json.specs.Data.{no_members};
ghost use Rattle.sd_json.specs.ArraysReading.{lesser};
ghost use Rattle.sd_json.specs.Entries.{AreKept};
ghost use Rattle.sd_json.specs.declared.names.Names.{Names};

use crate::entries::Entries;
use sd_list::{NoMemory, Text};
use std::alloc::Global;

/// What is kept of the entries of an arrays file.
#[derive(Drop)]
pub(crate) struct Kept {
    /// Those of size symbols and arguments.
    pub(crate) entries: Entries,
    /// The least name of the others, in byte order.
    pub(crate) extra: Option<Text>,
}

impl Kept {
    /// Nothing yet, as of an object without members.
    pub(crate) fn new(alloc: Global) -> Kept
        ensures { (names : Names) → AreKept names result no_members }
    {
        Kept {
            entries: Entries::new(alloc),
            extra: None,
        }
    }

    /// Notes the name of an entry that is neither a size symbol's nor an argument's. Of all of them
    /// only the least one stays.
    pub(crate) fn note(&mut self, alloc: Global, name: &str) -> Result<(), NoMemory>
        ensures extra { OnOk result (self.new.extra ≡ Some (lesser name.now self.old.extra)) }
        ensures entries { OnOk result (self.new.entries ≡ self.old.entries) }
    {
        match &self.extra {
            Some(least) if name > least.as_str() => {}
            _ => self.extra = Some(Text::from(name.to_string(alloc)?)),
        }
        Ok(())
    }
}
