// Numbers of a line, in the types of the calls.
use decimal::number_in;

// The number that a text is, where the type holds it.
pub fn narrow_in<T: TryFrom<i64>>(text: &[u8]) -> Option<T>
where
    T::Error: Drop,
{
    T::try_from(number_in(text)?).ok()
}
