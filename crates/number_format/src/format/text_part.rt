//! Parts of the text of a number, and their kinds.
ghost use Rattle.std.specs.Prelude.{◌≡◌, ◌≤◌, length};

/// What a part of the text of a number is, as `formatToParts` of ECMA-402 names it.
///
/// White space and direction marks at the ends of a text that is neither digits nor a separator of groups are literals,
/// as ICU has them: `5 km` is `5`, a space, and `km`. ECMA-402 leaves this open.
#[derive(Clone, Copy, Debug, PartialEq)]
pub enum PartKind {
    /// Integer digits.
    Integer,
    /// A separator of groups.
    Group,
    /// The decimal separator.
    Decimal,
    /// Fraction digits.
    Fraction,
    /// A minus sign before or after the number.
    MinusSign,
    /// A plus sign.
    PlusSign,
    /// A percent sign.
    PercentSign,
    /// The symbol, the code or the name of a currency.
    Currency,
    /// Parentheses, and spaces and marks between the others.
    Literal,
    /// The word of a power of ten in compact notation.
    Compact,
    /// The text of a unit; also a percent sign that is one.
    Unit,
    /// The separator before an exponent.
    ExponentSeparator,
    /// The minus sign of an exponent.
    ExponentMinusSign,
    /// The plus sign of an exponent.
    ExponentPlusSign,
    /// The digits of an exponent.
    ExponentInteger,
    /// A sign before a number that is not exact, in a range.
    ApproximatelySign,
}

/// A part of the text of a number: at most 255 bytes.
#[derive(Clone, Copy, Debug)]
pub struct TextPart<'f> {
    /// What it is.
    pub kind: PartKind,
    /// The text, which may be empty.
    pub text: &'f str,
    pub ghost short: { length text.now ≤ 255 },
}

impl<'f> TextPart<'f> {
    pub(crate) fn new(kind: PartKind, text: &'f str) -> Self
        requires { length text.now ≤ 255 }
        ensures kind { result.kind ≡ kind }
        ensures text { result.text.now ≡ text.now }
    {
        TextPart { kind, text }
    }
}
