ghost use Rattle.sd_range.specs.declared.affine.Affine.{Affine};
ghost use Rattle.sd_range.specs.Arithmetic.{IsRepresentable};
ghost use Rattle.sd_program.specs.Small.{IsWithinLimits};

/// An expression within the limits has numbers that fit 128 bits.
pub fn small_expressions_are_representable()
    ensures { (a : Affine) → IsWithinLimits a → IsRepresentable a }
{}
