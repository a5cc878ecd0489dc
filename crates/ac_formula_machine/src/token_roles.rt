//! What a token of formula text is, by what may stand at a place.
ghost use Rattle.std.specs.Prelude.{◌≡◌, IfOk};
ghost use Rattle.ac_formula_machine.specs.FormulaMachine.{name_in as name_of, bound_in as bound_of, relation_in as relation_of, is_comma as comma, is_open_paren as open_paren, is_close_paren as close_paren, is_open_bracket as open_bracket, is_close_bracket as close_bracket, is_open_brace as open_brace, product_sign as sign_of_product, connective as link_of, factor_start as start_of_factor, part_start as start_of_part, array_word as word_of_array, index_end as end_of_index};

use ac_formula_printer::FormulaMark;
use ac_tree::{Name, RelOp};
use std::alloc::AllocError;

/// What goes on with a product.
pub enum ProductSign {
    Plus,
    Minus,
    Star,
    Other,
}

/// What goes on behind a conjunction.
pub enum Connective {
    And,
    Or,
    Implies,
    Close,
    Other,
}

/// How a factor begins; with an array, or not at all, if in no other way.
pub enum FactorStart {
    Literal,
    Bound,
    Hash,
    Minus,
    Paren,
    Array,
}

/// How a part begins; with a term, or not at all, if in no other way.
pub enum PartStart {
    True,
    False,
    Not,
    Brace,
    All,
    Label,
    Term,
}

/// The words that begin an array.
pub enum ArrayWord {
    Init,
    Put,
    Other,
}

/// What ends a first index.
pub enum IndexEnd {
    Bracket,
    Comma,
    Other,
}

/// The name that a token is.
pub fn name_in(mark: &FormulaMark) -> Result<Option<Name>, AllocError>
    ensures { IfOk result (λ name. name ≡ name_of mark.now) }
{
    match mark {
        FormulaMark::Name(name) => Ok(Some(name.clone()?)),
        _ => Ok(None),
    }
}

/// The bound name that a token is.
pub fn bound_in(mark: &FormulaMark) -> Result<Option<Name>, AllocError>
    ensures { IfOk result (λ name. name ≡ bound_of mark.now) }
{
    match mark {
        FormulaMark::Bound(name) => Ok(Some(name.clone()?)),
        _ => Ok(None),
    }
}

pub(crate) fn relation_in(mark: &FormulaMark) -> Option<RelOp>
    ensures { result ≡ relation_of mark.now }
{
    match mark {
        FormulaMark::Relation(relation) => Some(*relation),
        _ => None,
    }
}

pub(crate) fn is_comma(mark: &FormulaMark) -> bool
    ensures { result ≡ comma mark.now }
{
    matches!(mark, FormulaMark::Comma)
}

/// Whether a token is `(`.
pub fn is_open_paren(mark: &FormulaMark) -> bool
    ensures { result ≡ open_paren mark.now }
{
    matches!(mark, FormulaMark::OpenParen)
}

/// Whether a token is `)`.
pub fn is_close_paren(mark: &FormulaMark) -> bool
    ensures { result ≡ close_paren mark.now }
{
    matches!(mark, FormulaMark::CloseParen)
}

pub(crate) fn is_open_bracket(mark: &FormulaMark) -> bool
    ensures { result ≡ open_bracket mark.now }
{
    matches!(mark, FormulaMark::OpenBracket)
}

pub(crate) fn is_close_bracket(mark: &FormulaMark) -> bool
    ensures { result ≡ close_bracket mark.now }
{
    matches!(mark, FormulaMark::CloseBracket)
}

/// Whether a token is `{`.
pub fn is_open_brace(mark: &FormulaMark) -> bool
    ensures { result ≡ open_brace mark.now }
{
    matches!(mark, FormulaMark::OpenBrace)
}

pub(crate) fn product_sign(mark: &FormulaMark) -> ProductSign
    ensures { result ≡ sign_of_product mark.now }
{
    match mark {
        FormulaMark::Plus => ProductSign::Plus,
        FormulaMark::Minus => ProductSign::Minus,
        FormulaMark::Star => ProductSign::Star,
        _ => ProductSign::Other,
    }
}

/// What a token is behind a conjunction.
pub fn connective_in(mark: &FormulaMark) -> Connective
    ensures { result ≡ link_of mark.now }
{
    match mark {
        FormulaMark::And => Connective::And,
        FormulaMark::Or => Connective::Or,
        FormulaMark::Implies => Connective::Implies,
        FormulaMark::CloseBrace => Connective::Close,
        _ => Connective::Other,
    }
}

pub(crate) fn factor_start(mark: &FormulaMark) -> FactorStart
    ensures { result ≡ start_of_factor mark.now }
{
    match mark {
        FormulaMark::Literal(_) => FactorStart::Literal,
        FormulaMark::Bound(_) => FactorStart::Bound,
        FormulaMark::Hash => FactorStart::Hash,
        FormulaMark::Minus => FactorStart::Minus,
        FormulaMark::OpenParen => FactorStart::Paren,
        _ => FactorStart::Array,
    }
}

/// How a token begins a part.
pub fn part_start(mark: &FormulaMark) -> PartStart
    ensures { result ≡ start_of_part mark.now }
{
    match mark {
        FormulaMark::True => PartStart::True,
        FormulaMark::False => PartStart::False,
        FormulaMark::Not => PartStart::Not,
        FormulaMark::OpenBrace => PartStart::Brace,
        FormulaMark::All => PartStart::All,
        FormulaMark::At => PartStart::Label,
        _ => PartStart::Term,
    }
}

pub(crate) fn array_word(mark: &FormulaMark) -> ArrayWord
    ensures { result ≡ word_of_array mark.now }
{
    match mark {
        FormulaMark::Init => ArrayWord::Init,
        FormulaMark::Put => ArrayWord::Put,
        _ => ArrayWord::Other,
    }
}

pub(crate) fn index_end(mark: &FormulaMark) -> IndexEnd
    ensures { result ≡ end_of_index mark.now }
{
    match mark {
        FormulaMark::CloseBracket => IndexEnd::Bracket,
        FormulaMark::Comma => IndexEnd::Comma,
        _ => IndexEnd::Other,
    }
}
