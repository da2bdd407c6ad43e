ghost use Rattle.std.specs.Prelude.{◌≡◌};
ghost use Rattle.sd_task.specs.task.Operators as signs;

use sd_graph::{OneSign, TwoSign};

/// The sign of a graph's code that stands for one of the syntax tree.
pub fn one_sign(sign: sd_lex::OneSign) -> OneSign
    ensures { result ≡ signs.one_sign sign }
{
    match sign {
        sd_lex::OneSign::Not => OneSign::Not,
        sd_lex::OneSign::Neg => OneSign::Neg,
        sd_lex::OneSign::Inv => OneSign::Inv,
    }
}

/// The same of a sign between two expressions.
pub fn two_sign(sign: sd_lex::TwoSign) -> TwoSign
    ensures { result ≡ signs.two_sign sign }
{
    match sign {
        sd_lex::TwoSign::Or => TwoSign::Or,
        sd_lex::TwoSign::And => TwoSign::And,
        sd_lex::TwoSign::Less => TwoSign::Less,
        sd_lex::TwoSign::LessEqual => TwoSign::LessEqual,
        sd_lex::TwoSign::Greater => TwoSign::Greater,
        sd_lex::TwoSign::GreaterEqual => TwoSign::GreaterEqual,
        sd_lex::TwoSign::Equal => TwoSign::Equal,
        sd_lex::TwoSign::Differ => TwoSign::Differ,
        sd_lex::TwoSign::BitOr => TwoSign::BitOr,
        sd_lex::TwoSign::BitXor => TwoSign::BitXor,
        sd_lex::TwoSign::BitAnd => TwoSign::BitAnd,
        sd_lex::TwoSign::Add => TwoSign::Add,
        sd_lex::TwoSign::Sub => TwoSign::Sub,
        sd_lex::TwoSign::Mul => TwoSign::Mul,
        sd_lex::TwoSign::FloorDiv => TwoSign::FloorDiv,
        sd_lex::TwoSign::Mod => TwoSign::Mod,
        sd_lex::TwoSign::Min => TwoSign::Min,
        sd_lex::TwoSign::Max => TwoSign::Max,
    }
}
