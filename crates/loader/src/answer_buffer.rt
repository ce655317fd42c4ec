// A buffer for one answer.
ghost use Rattle.std.specs.Prelude.{◌≤◌, length};

// A caller's buffer with room for every answer.
#[derive(Drop)]
pub(crate) struct AnswerBuffer<'a> {
    pub(crate) bytes: &'a mut [u8],
    ghost room: { 518 ≤ length bytes.now },
}
