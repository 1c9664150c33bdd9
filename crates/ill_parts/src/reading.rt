//! Parts whose fields are read one by one.

/// The part with these fields, each of which is read, or the error of one of them. Fields are read in groups, with `;` between them. A group is read
/// whole before one of its fields is looked at, so that there is one place where they are dropped.
#[macro_export]
macro_rules! part_of {
    ($part:ident { $($($field:ident: $read:expr),+ $(,)?);+ }) => {{
        $(
            let ($(Ok($field),)+) = ($($read,)+) else {
                return Err(AllocError);
            };
        )+
        Ok($part { $($($field),+),+ })
    }};
}
