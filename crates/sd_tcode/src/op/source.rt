//! What instructions read beside their registers.
ghost use Rattle.std.specs.Prelude.{◌≡◌, ℕ, ◌<◌, List, length, Ok};
ghost use Rattle.sd_graph.specs.TaskletMeaning as meaning;
ghost use Rattle.sd_tcode.specs.op.Machine.{Held, answered, extents_at, cell_of};

use sd_graph::FaultKind;

/// The connectors of code, wherever the elements of the inputs stand.
pub trait Source {
    ghost connectors: { Self → List Held };

    ghost is_held: { Self → ℕ → Type 0 };

    /// An index is inside a connector, or else the fault that it is not.
    fn is_at(&self, connector: u32, at: &[i64]) -> Result<(), FaultKind>
        requires { connector < length (connectors self.now) }
        ensures { meaning.checked (extents_at (connectors self.now) connector) at.now ≡ answered result at.now };

    /// The element at an index, or else the fault that it is not inside.
    fn element(&self, connector: u32, at: &[i64]) -> Result<i64, FaultKind>
        requires there { connector < length (connectors self.now) }
        requires held { is_held self.now connector }
        requires some { 0 < length at.now }
        ensures { result ≡ meaning.and_then (meaning.checked (extents_at (connectors self.now) connector) at.now) (λ at. Ok (cell_of (connectors self.now) connector at)) };
}
