ghost use Rattle.std.specs.Prelude.{◌≡◌, Some};
ghost use Rattle.filt_types.specs.Refusals.{number_of, precedes, first_of, first_in, refused_if};

/// Why a place of a filter is refused.
#[derive(Clone, Copy)]
pub enum Cause {
    /// The name has no declaration of the wanted sort before it.
    UnknownName,
    /// The name is seen already.
    DuplicateName,
    /// An operand, an argument, a condition, a value or an item is of a sort that its place doesn't
    /// take.
    Mismatch,
    /// What can't be assigned to, changed or unset.
    NotAssignable,
    /// The filter or function weighs over 10,000,000.
    TooHeavy,
    /// A number, a range or a name over its limit.
    Limit,
}

/// A refusal: the byte of its place, and its cause.
#[derive(Clone, Copy)]
pub struct Refusal {
    pub at: usize,
    pub cause: Cause,
}

/// Keeps the first of what is refused.
pub fn note(first: &mut Option<Refusal>, at: usize, cause: Cause)
    ensures { first.new ≡ first_of first.old (record { at = at; cause = cause }) }
{
    *first = Some(earlier(*first, Refusal { at, cause }));
}

/// As `note`, where something is refused.
pub fn note_if(first: &mut Option<Refusal>, is_refused: bool, at: usize, cause: Cause)
    ensures { first.new ≡ first_in first.old (refused_if is_refused at cause) }
{
    if is_refused {
        note(first, at, cause);
    }
}

fn earlier(found: Option<Refusal>, refusal: Refusal) -> Refusal
    ensures { Some result ≡ first_of found refusal }
{
    match found {
        None => refusal,
        Some(other) => {
            if is_before(&refusal, &other) {
                return refusal;
            }
            other
        }
    }
}

fn is_before(a: &Refusal, b: &Refusal) -> bool
    ensures { result ≡ precedes a.now b.now }
{
    let same_place = a.at == b.at;
    let lower = number(a.cause) < number(b.cause);
    (a.at < b.at) | (same_place & lower)
}

fn number(cause: Cause) -> u32
    ensures { result ≡ number_of cause }
{
    match cause {
        Cause::UnknownName => 4,
        Cause::DuplicateName => 5,
        Cause::Mismatch => 6,
        Cause::NotAssignable => 7,
        Cause::TooHeavy => 8,
        Cause::Limit => 14,
    }
}
