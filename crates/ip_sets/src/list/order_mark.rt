//! The byte order mark that a list may begin with.

ghost use Rattle.std.specs.Prelude.{◌≡◌};
ghost use Rattle.ip_sets.specs.List.{without_order_mark};

/// Returns the bytes without the byte order mark of UTF-8 that they may begin with.
pub(crate) fn without_order_mark(bytes: &[u8]) -> &[u8]
    ensures { result.now ≡ without_order_mark bytes.now }
{
    if bytes.starts_with(b"\xef\xbb\xbf") {
        return &bytes[3..];
    }
    bytes
}
