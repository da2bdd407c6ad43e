ghost use Rattle.std.specs.Prelude.{◌≡◌, OnOk, map};
ghost use Rattle.sd_lex.specs.TreeFold.{call_argument_of};
ghost use Rattle.sd_source.specs.nodes.Names.{noted_own, found};
ghost use Rattle.sd_source.specs.nodes.Nodes.{chosen};
ghost use Rattle.sd_source.specs.nodes.SourceItems.{is_for, given, parameters_by};
ghost use Rattle.sd_source.specs.declared.nodes.access.Access.TheVariants.{Read, Write};

use crate::nodes::access::Access;
use crate::nodes::name_set::NameSet;
use crate::nodes::table::ParameterTable;
use sd_lex::Slot;
use sd_list::NoMemory;
use std::alloc::Global;

/// Whether this is done with a parameter.
fn is_for(access: Access, parameter: Option<Access>) -> bool
    ensures { result ≡ is_for access parameter }
{
    match (access, parameter) {
        (Access::Read, Some(Access::Read)) | (Access::Write, Some(Access::Write)) => true,
        (Access::Read, _) | (Access::Write, _) => false,
    }
}

/// Notes the containers that are given for the parameters with this access.
#[tactic(auto, using(crate::proofs::nodes_lemmas::AccessLemmas::given_nothing))]
fn note_given(
    alloc: Global,
    own: &NameSet,
    access: Access,
    parameters: &[Option<Access>],
    arguments: &[(String, Vec<Slot>)],
    names: &mut NameSet,
) -> Result<(), NoMemory>
    ensures { OnOk result (names.new ≡ noted_own own.now names.old (given access parameters.now (map call_argument_of arguments.now))) }
{
    let mut left = arguments;
    for &parameter in parameters {
        match left {
            [argument, rest @ ..] => {
                if is_for(access, parameter) {
                    names.note_own(alloc, own, &argument.0)?;
                }
                left = rest;
            }
            [] => return Ok(()),
        }
    }
    Ok(())
}

/// Notes the containers that a call reads or writes.
#[tactic(auto, using(crate::proofs::nodes_lemmas::AccessLemmas::chosen_given))]
pub fn note_call(
    alloc: Global,
    functions: &ParameterTable,
    own: &NameSet,
    access: Access,
    name: &str,
    arguments: &[(String, Vec<Slot>)],
    names: &mut NameSet,
) -> Result<(), NoMemory>
    ensures { OnOk result (names.new ≡ noted_own own.now names.old (chosen access (given Read (parameters_by (found functions.now name.now)) (map call_argument_of arguments.now)) (given Write (parameters_by (found functions.now name.now)) (map call_argument_of arguments.now)))) }
{
    match functions.find(name) {
        Some(parameters) => {
            note_given(alloc, own, access, parameters.as_slice(), arguments, names)
        }
        None => Ok(()),
    }
}
