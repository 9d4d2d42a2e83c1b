//! The form for writing the conditions of a table's lines.

/// Whether a form, whose type is named first, meets its line's condition: the condition of each line that has one, over
/// the fields that it reads. Other lines have none.
#[macro_export]
macro_rules! condition_of {
    ($forms:ident, $form:ident: $($($line:ident)*: $fields:tt => $holds:expr;)*) => {
        match *$form {
            $($($forms::$line $fields => $holds,)*)*
            _ => true,
        }
    };
}
