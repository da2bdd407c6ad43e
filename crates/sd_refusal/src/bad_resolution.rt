//! Error 9: no resolution.
ghost use Rattle.std.specs.Prelude.{◌≡◌, option_map};
ghost use Rattle.sd_line.specs.line.HeadFold.{head_tree};
ghost use Rattle.sd_phrase.specs.Memlet.{lambda_tree_of};
ghost use Rattle.sd_refusal.specs.BadResolution as bad;

use sd_line::Head;
use sd_phrase::WrittenLambda;

fn has_no_kind(lambda: &Option<WrittenLambda>) -> bool
    ensures { result ≡ bad.has_no_kind (option_map lambda_tree_of lambda.now) }
{
    match lambda {
        Some(lambda) => lambda.kind.is_none(),
        None => false,
    }
}

/// Error 9: whether the line has a lambda of none of the eight kinds.
pub fn has_bad_resolution(head: &Head) -> bool
    ensures { result ≡ bad.has_bad_resolution (head_tree head.now) }
{
    match head {
        Head::Reduce { lambda, .. } => lambda.kind.is_none(),
        Head::Input { memlet, .. } => has_no_kind(&memlet.lambda),
        Head::Output { memlet, .. } => has_no_kind(&memlet.lambda),
        _ => false,
    }
}
