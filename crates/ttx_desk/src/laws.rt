//! Laws of authors' texts. A call does nothing at run time, and gives the law to the caller's proof.

ghost use Rattle.ttx_desk.specs.Again.{ComposedAgainIsTheSame};
ghost use Rattle.ttx_desk.specs.Seen.{TextsAreSeen};

/// What an author writes is what the viewers see: in each page of the service that `compose` answers, each cell that an author's character
/// stands for shows this character, or these blocks, in the order written; tags show a space each. Hidden rows, held mosaics and concealed
/// cells are as `IsOwn` and `CellShows` say.
pub fn texts_are_seen()
    ensures { TextsAreSeen }
{
    ttx_author::laws::row_is_seen();
    ttx_author::laws::head_is_seen();
}

/// A service text that is decomposed and composed again gives the same service.
pub fn composed_again_is_the_same()
    ensures { ComposedAgainIsTheSame }
{}
