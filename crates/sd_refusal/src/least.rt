//! The least number against a line.
ghost use Rattle.std.specs.Prelude.{◌≡◌, IfOk};
ghost use Rattle.sd_line.specs.line.HeadFold.{head_tree};
ghost use Rattle.sd_refusal.specs.Refusals as refusals;

use crate::bad_resolution::has_bad_resolution;
use crate::no_form::is_no_form;
use crate::not_affine::is_not_affine;
use crate::over_limit::is_over_limit;
use crate::site::Site;
use sd_line::Head;
use sd_list::NoMemory;
use sd_names::Names;
use sd_uses::{declares_twice, has_mismatch, has_unknown_name};
use std::alloc::Global;

/// The least number that stands against a line of this head at this site, None where none does. The head
/// is that of the line's own kind of block, and what the line itself declares is not in force.
pub fn refusal(
    alloc: Global,
    names: &Names,
    site: Site,
    head: &Head,
) -> Result<Option<u8>, NoMemory>
    ensures { IfOk result (λ number. number ≡ refusals.refusal names.now site (head_tree head.now)) }
{
    if is_no_form(alloc, names, site, head)? {
        return Ok(Some(4));
    }
    if has_unknown_name(names, site.kind, head) {
        return Ok(Some(5));
    }
    if is_not_affine(alloc, names, site.kind, head)? {
        return Ok(Some(6));
    }
    if declares_twice(alloc, names, head)? {
        return Ok(Some(7));
    }
    if is_over_limit(alloc, names, site, head)? {
        return Ok(Some(8));
    }
    if has_bad_resolution(head) {
        return Ok(Some(9));
    }
    if has_mismatch(alloc, names, head)? {
        return Ok(Some(10));
    }
    Ok(None)
}
