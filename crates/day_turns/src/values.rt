// The values of a line's fields, once the line is judged: each field is then what it has to be.
// The whole number in the field at a place.
pub fn whole(line: &[u8], place: usize) -> u64 {
    match day_fields::whole_in(line, place) {
        Ok(value) => value as u64,
        Err(_) => 0,
    }
}

// The decimal in the field at a place.
pub fn decimal(line: &[u8], place: usize) -> f64 {
    match day_fields::decimal_in(line, place) {
        Ok(value) => value,
        Err(_) => 0.0,
    }
}

// Its bits.
pub fn bits(line: &[u8], place: usize) -> u64 {
    float::bits(decimal(line, place))
}
