ghost use Rattle.std.specs.Prelude.{◌≡◌};
ghost use Rattle.gd_http.specs.Asking.{method_of};

/// A method of HTTP.
#[derive(Clone, Copy, Debug, PartialEq, Eq)]
pub enum Method {
    Get,
    Put,
    Post,
    Patch,
    Delete,
    Other,
}

/// Methods are told apart by case.
#[tactic(auto, unfolding(crate::specs::Asking::method_of))]
pub fn method_of(text: &[u8]) -> Method
    ensures { result ≡ method_of text.now }
{
    if text == b"GET".as_slice() {
        Method::Get
    } else if text == b"PUT".as_slice() {
        Method::Put
    } else if text == b"POST".as_slice() {
        Method::Post
    } else if text == b"PATCH".as_slice() {
        Method::Patch
    } else if text == b"DELETE".as_slice() {
        Method::Delete
    } else {
        Method::Other
    }
}
