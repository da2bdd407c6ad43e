//! The sign at which tokens are cut.
ghost use Rattle.std.specs.Prelude.{◌≡◌, ◌<◌, ◌+◌, ◌^◌, length, IfSome};
ghost use Rattle.sd_phrase.specs.Signs as signs;

use crate::word::{Piece, Place, Sign, Word};
use sd_lex::{OneSign, TwoSign};

pub(crate) fn rank_of_two(sign: TwoSign) -> u8
    ensures { result ≡ signs.rank_of_two sign }
{
    match sign {
        TwoSign::Or => 2,
        TwoSign::And => 3,
        TwoSign::Less => 5,
        TwoSign::LessEqual => 5,
        TwoSign::Greater => 5,
        TwoSign::GreaterEqual => 5,
        TwoSign::Equal => 5,
        TwoSign::Differ => 5,
        TwoSign::BitOr => 6,
        TwoSign::BitXor => 7,
        TwoSign::BitAnd => 8,
        TwoSign::Add => 9,
        TwoSign::Sub => 9,
        TwoSign::Mul => 10,
        TwoSign::FloorDiv => 10,
        TwoSign::Mod => 10,
        TwoSign::Min => 12,
        TwoSign::Max => 12,
    }
}

pub(crate) fn rank_of_one(sign: OneSign) -> u8
    ensures { result ≡ signs.rank_of_one sign }
{
    match sign {
        OneSign::Not => 4,
        OneSign::Neg => 11,
        OneSign::Inv => 11,
    }
}

pub(crate) fn rank_of(sign: Sign) -> u8
    ensures { result ≡ signs.rank_of sign }
{
    match sign {
        Sign::Stop => 0,
        Sign::If => 1,
        Sign::Else => 1,
        Sign::One(one) => rank_of_one(one),
        Sign::Two(two) => rank_of_two(two),
    }
}

/// Whether tokens are cut at the later of two signs.
fn cuts_before(later: Sign, earlier: Sign) -> bool
    ensures { result ≡ signs.cuts_before later earlier }
{
    match later {
        Sign::Two(two) => rank_of_two(two) <= rank_of(earlier),
        Sign::One(one) => rank_of_one(one) < rank_of(earlier),
        Sign::If => 1 < rank_of(earlier),
        Sign::Else => 1 < rank_of(earlier),
        Sign::Stop => 0 < rank_of(earlier),
    }
}

fn sign_of(word: Word, after: bool) -> Option<Sign>
    ensures { result ≡ signs.sign_of word after }
{
    match word {
        Word::Between(two) => Some(Sign::Two(two)),
        Word::Before(one) => Some(Sign::One(one)),
        Word::Minus => {
            if after {
                Some(Sign::Two(TwoSign::Sub))
            } else {
                Some(Sign::One(OneSign::Neg))
            }
        }
        Word::If => Some(Sign::If),
        Word::Else => Some(Sign::Else),
        Word::Stop(_) => Some(Sign::Stop),
        _ => None,
    }
}

/// Whether an expression can end with the word.
fn ends(word: Word) -> bool
    ensures { result ≡ signs.ends word }
{
    match word {
        Word::Number(_) => true,
        Word::Name => true,
        Word::Callee(_) => true,
        Word::Close(_) => true,
        Word::Quoted => true,
        _ => false,
    }
}

/// How many brackets are open behind the word.
pub(crate) fn depth_after(word: Word, depth: usize) -> usize
    requires { depth + 1 < 2 ^ 64 }
    ensures { result ≡ signs.depth_after word depth }
{
    match word {
        Word::Open(_) => depth + 1,
        Word::Close(_) => depth.saturating_sub(1),
        _ => depth,
    }
}

fn better(best: Option<Place>, at: usize, sign: Option<Sign>) -> Option<Place>
    ensures { result ≡ signs.better best at sign }
{
    match sign {
        None => best,
        Some(sign) => match best {
            None => Some(Place { at, sign }),
            Some(place) => {
                if cuts_before(sign, place.sign) {
                    Some(Place { at, sign })
                } else {
                    Some(place)
                }
            }
        },
    }
}

fn better_outside(depth: usize, best: Option<Place>, at: usize, sign: Option<Sign>) -> Option<Place>
    ensures { result ≡ signs.better_outside depth best at sign }
{
    if depth == 0 {
        better(best, at, sign)
    } else {
        best
    }
}

/// The sign at which the tokens are cut.
pub(crate) fn cut_of(tokens: &[Piece]) -> Option<Place>
    ensures place { result ≡ signs.cut_of tokens.now }
    ensures inside { IfSome result (λ p. p.at < length tokens.now) }
{
    let mut best = None;
    let mut depth = 0;
    let mut after = false;
    for at in 0..tokens.len() {
        let word = tokens[at].word;
        best = better_outside(depth, best, at, sign_of(word, after));
        depth = depth_after(word, depth);
        after = ends(word);
    }
    best
}
