// What a block call is lent, of any lengths, and what the lists that it may change held before.
#[derive(Drop)]
pub struct Lists<'a> {
    pub memory: &'a mut [i32],
    pub gains: &'a [i32],
    pub input: &'a [i32],
    pub output: &'a mut [i32],
}

#[derive(Clone, Copy)]
pub struct Before<'a> {
    pub memory: &'a [i32],
    pub output: &'a [i32],
}
