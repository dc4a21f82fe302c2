ghost use Rattle.std.specs.Prelude.{◌≡◌};
ghost use Rattle.std.specs.List.{list_all};
ghost use Rattle.od_words.specs.Hosts.{is_host, is_host_byte};

/// Whether the text may be the name that this client gives to its conflict copies.
pub fn is_host(text: &[u8]) -> bool
    ensures { result ≡ is_host text.now }
{
    !text.is_empty() && text.len() <= 63 && are_host_bytes(text)
}

fn are_host_bytes(text: &[u8]) -> bool
    ensures { result ≡ list_all is_host_byte text.now }
{
    text.iter().all(|byte| is_host_byte(*byte))
}

fn is_host_byte(byte: u8) -> bool
    ensures { result ≡ is_host_byte byte }
{
    matches!(byte, b'0'..=b'9' | b'A'..=b'Z' | b'a'..=b'z' | b'-')
}
