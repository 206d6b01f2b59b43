ghost use Rattle.std.specs.Prelude.{◌≡◌};
ghost use Rattle.swift_token.specs.Texts.{is_among, long_marks, short_marks};

/// Whether the bytes are a mark of two bytes.
pub fn is_long_mark(bytes: &[u8]) -> bool
    ensures { result ≡ is_among long_marks bytes.now }
{
    match bytes {
        [first, second] => match *second {
            b'>' => *first == b'-',
            b'=' => matches!(*first, b'=' | b'!' | b'<' | b'>'),
            b'&' => *first == b'&',
            b'|' => *first == b'|',
            _ => false,
        },
        _ => false,
    }
}

/// Whether the bytes are a mark of one byte.
pub fn is_short_mark(bytes: &[u8]) -> bool
    ensures { result ≡ is_among short_marks bytes.now }
{
    match bytes {
        [byte] => matches!(
            *byte,
            b'(' | b')'
                | b'{'
                | b'}'
                | b','
                | b':'
                | b'.'
                | b'='
                | b'<'
                | b'>'
                | b'+'
                | b'-'
                | b'*'
                | b'/'
                | b'%'
                | b'!'
        ),
        _ => false,
    }
}
