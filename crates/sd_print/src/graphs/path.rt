//! The texts of paths.
ghost use Rattle.std.specs.Prelude.{◌≡◌, ◌++◌, ◌∷◌, [], string_bytes, IfOk, OnOk};
ghost use Rattle.sd_print.specs.graphs.GraphText as definition;

use sd_list::NoMemory;
use std::alloc::Global;

/// Adds a path.
pub fn push_path(text: &mut String, path: &[u32]) -> Result<(), NoMemory>
    ensures { OnOk result (string_bytes text.new ≡ string_bytes text.old ++ definition.path_text path.now) }
{
    let Some((step, others)) = path.split_first() else {
        return Ok(());
    };
    write!(text, "{step}")?;
    for other in others {
        write!(text, ".{other}")?;
    }
    Ok(())
}

/// A path with one step more.
pub fn with_step(alloc: Global, path: &[u32], step: u32) -> Result<Vec<u32>, NoMemory>
    ensures { IfOk result (λ longer. longer.items ≡ path.now ++ step ∷ []) }
{
    let mut longer = path.to_vec(alloc)?;
    longer.push(step)?;
    Ok(longer)
}

/// The line before the graph at a path, with its newline.
pub fn path_line(alloc: Global, path: &[u32]) -> Result<String, NoMemory>
    ensures { IfOk result (λ line. string_bytes line ≡ definition.path_line path.now) }
{
    let mut line = String::new(alloc);
    line.push_str("in ")?;
    push_path(&mut line, path)?;
    line.push_str("\n")?;
    Ok(line)
}
