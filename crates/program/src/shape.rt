/// What the check knows of a kind of value: its number, the bytes of a value, and how many operators it has.
#[derive(Clone, Copy)]
pub struct KindShape {
    pub number: u8,
    pub width: u8,
    pub operators: u8,
}
