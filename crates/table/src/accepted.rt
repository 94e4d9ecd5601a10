// A sheet that the check accepts, lent: what is read of it needs no test.
ghost use Rattle.table.specs.Held.{IsAccepted};

#[derive(Clone, Copy)]
pub struct AcceptedSheet<'a> {
    pub bytes: &'a [u8],
    pub ghost accepted: { IsAccepted bytes.now },
}
