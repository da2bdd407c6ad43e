ghost use Rattle.std.specs.Prelude.{◌≡◌, ◌↔◌, IsTrue};
ghost use Rattle.sd_board.specs.declared.mark.Mark.TheVariants.{ToBegin, InWork, Finished};

/// How far a piece is.
#[derive(Clone, Copy, Debug, PartialEq, Eq)]
pub enum Mark {
    ToBegin,
    InWork,
    Finished,
}

impl Mark {
    /// Whether it is still to begin.
    pub(crate) fn is_to_begin(self) -> bool
        ensures { IsTrue result ↔ (self ≡ ToBegin) }
    {
        matches!(self, Mark::ToBegin)
    }

    /// Whether it is in work.
    pub(crate) fn is_in_work(self) -> bool
        ensures { IsTrue result ↔ (self ≡ InWork) }
    {
        matches!(self, Mark::InWork)
    }

    /// Whether it is finished.
    pub(crate) fn is_finished(self) -> bool
        ensures { IsTrue result ↔ (self ≡ Finished) }
    {
        matches!(self, Mark::Finished)
    }
}
