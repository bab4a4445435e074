// Letters with which keys end, tested before a table is searched: most marks of the suffix stage fail by the last letter alone.
ghost use Rattle.std.specs.Prelude.{◌≡◌};
ghost use Rattle.keys.specs.Ends.{is_U_of, is_a, is_kmn_of};

// The letters that the marks' names write U and A, and those that may follow in yDU and ysA.
pub fn is_U(c: u32) -> bool
    ensures { result ≡ is_U_of c }
{
    ((c == 0x69) | (c == 0x75)) | ((c == 0x131) | (c == 0xFC))
}

pub fn is_A(c: u32) -> bool
    ensures { result ≡ is_a c }
{
    (c == 0x61) | (c == 0x65)
}

pub fn is_kmn(c: u32) -> bool
    ensures { result ≡ is_kmn_of c }
{
    (c == 0x6B) | ((c == 0x6D) | (c == 0x6E))
}
