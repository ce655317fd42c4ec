// What a receiver does.
ghost use Rattle.std.specs.Prelude.{◌≡◌, ◌↔◌, true, false, length, take, IsOk, OnOk, OnErr, IsSomeAnd};
ghost use Rattle.flash.specs.Meaning.{Meaning};
ghost use Rattle.commands.specs.declared.kinds.Level.{Level};
ghost use Rattle.part.specs.declared.identity.Identity.{Identity};
ghost use Rattle.part.specs.Receiving.{heard};
ghost use Rattle.receiver.specs.Receivers.{wire_of, busy_of, heard_as, HearsWithin};
ghost use Rattle.receiver.specs.States.{task_in};
ghost use Rattle.receiver.specs.Tasks.{bounded};
ghost use Rattle.receiver.specs.Stores.{held};

use crate::bounded_task::{BoundedTask, UnboundedTask};
use crate::receiver::Receiver;
use crate::state::{Reception, State};
use crate::store::FrameStore;
use crate::task::Task;

impl Receiver {
    // A receiver as it starts: unconnected.
    pub fn new() -> Receiver
        ensures is_unconnected { result.state ≡ State.Unconnected }
    {
        Receiver {
            state: State::Unconnected,
            store: FrameStore::new(),
        }
    }

    // Takes one byte. What it leads to depends on where the receiver stands and on the byte.
    pub fn take(&mut self, byte: u8) -> Reception
        ensures busy_drops_the_byte { busy_of self.old ≡ true → (result ≡ Reception.Quiet) × (self.new ≡ self.old) }
        ensures hears_the_byte { busy_of self.old ≡ false → (i : Identity) (level : Level) (m : Meaning) → heard i level m (wire_of self.old) byte ≡ heard_as i level m self.new result }
        ensures takes_nothing_up { busy_of self.new ≡ busy_of self.old }
        ensures a_whole_frame_leaves_it_between_frames { result ≡ Reception.Whole → self.new.state ≡ State.Between }
    {
        match (self.state, byte) {
            (State::Unconnected, 0x5A) => {
                self.state = State::Between;
                Reception::Greet
            }
            (State::Between, 0x5A) => Reception::Greet,
            (State::Between, 0x85) => {
                self.store.begin(0x85);
                self.state = State::Header;
                Reception::Quiet
            }
            (State::Header, _) => self.take_header(byte),
            (State::Data, _) => self.take_data(byte),
            (State::Crc, _) => self.take_crc(byte),
            (State::Unconnected | State::Between | State::Busy(_), _) => Reception::Quiet,
        }
    }

    // A byte of the head, the command or the length. The length is judged with its last byte; a frame without data is whole then.
    fn take_header(&mut self, byte: u8) -> Reception
        requires { self.old.state ≡ State.Header }
        ensures { HearsWithin self.old byte self.new result }
    {
        self.store.push(byte);
        if self.store.count() < 4 {
            return Reception::Quiet;
        }
        let count = self.store.length_field();
        if count > 516 {
            self.state = State::Between;
            return Reception::TooLong;
        }
        if count == 0 {
            self.state = State::Between;
            return Reception::Whole;
        }
        self.state = State::Data;
        Reception::Quiet
    }

    // A byte of the data.
    fn take_data(&mut self, byte: u8) -> Reception
        requires { self.old.state ≡ State.Data }
        ensures { HearsWithin self.old byte self.new result }
    {
        self.store.push(byte);
        if self.store.count() == 4 + self.store.length_field() as usize {
            self.state = State::Crc;
        }
        Reception::Quiet
    }

    // A byte of the checksum. With its last byte the frame is whole.
    fn take_crc(&mut self, byte: u8) -> Reception
        requires { self.old.state ≡ State.Crc }
        ensures { HearsWithin self.old byte self.new result }
    {
        self.store.push(byte);
        if self.store.count() < 6 + self.store.length_field() as usize {
            return Reception::Quiet;
        }
        self.state = State::Between;
        Reception::Whole
    }

    // What the receiver is busy with, if it is.
    pub fn task(&self) -> Option<BoundedTask>
        ensures is_what_it_is_busy_with { result ≡ task_in self.now.state }
    {
        match self.state {
            State::Busy(task) => Some(task),
            _ => None,
        }
    }

    // Whether the receiver is connected.
    pub fn connected(&self) -> bool
        ensures tells_whether_it_is_connected { result ≡ (wire_of self.now).connected }
    {
        !matches!(self.state, State::Unconnected)
    }

    // The bytes of the open frame; none where no frame is open.
    pub fn open_frame(&self) -> &[u8]
        ensures is_the_open_frame { result.now ≡ (wire_of self.now).frame }
    {
        match self.state {
            State::Header | State::Data | State::Crc => self.store.frame(),
            _ => &[],
        }
    }

    // The frame so far: the whole frame, once there is one.
    pub fn frame(&self) -> &[u8]
        ensures is_the_frame { result.now ≡ held self.now.store }
        ensures is_the_head_of_the_store { take (length result.now) self.now.store.bytes ≡ result.now }
    {
        self.store.frame()
    }

    // The store of the frame, in which the data of a Write stand.
    pub fn store(&self) -> &[u8; 522]
        ensures is_the_store { result.now ≡ self.now.store.bytes }
        ensures has_room_for_the_longest_frame { length result.now ≡ 522 }
    {
        self.store.store()
    }

    // Becomes busy with a task, or goes on with it. A task that is not bounded is refused.
    pub fn hold(&mut self, task: Task) -> Result<(), UnboundedTask>
        ensures tells_whether_the_task_is_bounded { IsOk result ↔ (bounded task ≡ true) }
        ensures is_busy_with_a_bounded_task { OnOk result (IsSomeAnd (task_in self.new.state) (λ t. t.task ≡ task)) }
        ensures is_as_it_was_where_it_is_refused { OnErr result (self.new.state ≡ self.old.state) }
        ensures keeps_the_frame { self.new.store ≡ self.old.store }
    {
        self.hold_bounded(BoundedTask::try_from(task)?);
        Ok(())
    }

    // Becomes busy with a bounded task, or goes on with it.
    pub fn hold_bounded(&mut self, task: BoundedTask)
        ensures is_busy_with_it { self.new.state ≡ State.Busy task }
        ensures keeps_the_frame { self.new.store ≡ self.old.store }
    {
        self.state = State::Busy(task);
    }

    // Is between frames again.
    pub fn release(&mut self)
        ensures is_between_frames { self.new.state ≡ State.Between }
    {
        self.state = State::Between;
    }
}
