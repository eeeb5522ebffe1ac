//! What a piece brings of a response.
ghost use Rattle.std.specs.Prelude.{◌≡◌};
ghost use Rattle.pcache_response.specs.Parts.{parts_of};
ghost use Rattle.pcache_put.specs.Brought.{brought};

use crate::reading::BodyPart;
use pcache_meta::header::ResponseHeader;
use pcache_response::response_parse::PieceParts;

// At most one head and one part of the body.
#[derive(Drop)]
pub(crate) struct Brought {
    pub(crate) head: Option<ResponseHeader>,
    pub(crate) body: Option<BodyPart>,
}

impl Brought {
    // What these parts bring, without whether the response is whole with its head.
    pub(crate) fn from_parts(parts: PieceParts) -> Brought
        ensures { result ≡ brought (parts_of parts) }
    {
        let PieceParts { head, body } = parts;
        let body = match body {
            Some((bytes, is_last)) => Some(BodyPart { bytes, is_last }),
            None => None,
        };
        match head {
            Some((header, _)) => Brought {
                head: Some(header),
                body,
            },
            None => Brought { head: None, body },
        }
    }
}
