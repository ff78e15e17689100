//! Sums over what kernels give. They wrap around.
use plain_rows::{FieldValue, Row, Rows};
use schema_model::Value;

/// What the rows have, each times its number and one.
pub fn sum_of_rows(rows: &Rows) -> u64 {
    let mut sum: u64 = 0;
    for entry in rows.as_slice() {
        let number = u64::from(entry.who.0).wrapping_add(1);
        sum = sum.wrapping_add(number.wrapping_mul(sum_of_row(&entry.row)));
    }
    sum
}

// The whole numbers in the fields of an instance; how many items a collection has.
fn sum_of_row(row: &Row) -> u64 {
    match row {
        Row::Struct(_, fields) => sum_of_fields(fields.as_slice()),
        Row::Map(_, items) => items.len() as u64,
        Row::Array(_, values) => values.len() as u64,
        Row::Set(_, items) => items.len() as u64,
    }
}

// The whole numbers, each times the number of its field and one. Those outside 64 bits count as 0.
fn sum_of_fields(fields: &[FieldValue]) -> u64 {
    let mut sum: u64 = 0;
    for field in fields {
        if let Value::Whole(whole) = &field.value {
            let whole = u64::try_from(*whole).unwrap_or(0);
            sum = sum.wrapping_add((u64::from(field.field) + 1).wrapping_mul(whole));
        }
    }
    sum
}
