//! Who reads the answers of an admin connection.

/// Who reads the answers of an admin connection.
#[derive(Clone, Copy, Debug, PartialEq, Eq)]
pub enum Door {
    /// Programs: their texts stay as they are, to the byte.
    Programs,
    /// People: a refusal names the word that is wrong and says what was expected, and `show next`
    /// says how many ms its moment is off. All else is as for programs.
    People,
}
