//! Replaces a file, so that a crash leaves it whole.

ghost use Rattle.std.specs.Prelude.{Option, IfSome, OnErr, OnOk};
ghost use Rattle.edge_io.specs.Disk.{Trace, Takes, Touches, created, written, synced, renamed, folder_synced, removed};
ghost use Rattle.edge_io.specs.Disk.{StaysWhole, FailedMore, HoldsSynced, IsStored};

use std::io;

/// A disk with one name in it, and a file beside this name, which is made to replace the file at the name.
pub trait Disk {
    /// The folder now and at each moment before, if they are known. Within a call only the file beside has further moments.
    ghost trace: { Self → Option Trace };

    /// Makes the file beside. No other file is lost for it.
    fn create(&mut self) -> io::Result<()>
        ensures step { Touches result created (trace self.old) (trace self.new) };

    /// Writes the bytes into the file beside, which was made just before.
    fn write(&mut self, bytes: &[u8]) -> io::Result<()>
        ensures step { Touches result (written bytes.now) (trace self.old) (trace self.new) };

    /// Waits until the disk holds the file beside.
    fn sync(&mut self) -> io::Result<()>
        ensures step { Touches result synced (trace self.old) (trace self.new) };

    /// Gives the name to the file beside, in place of the file that has it.
    fn rename(&mut self) -> io::Result<()>
        ensures step { Takes result renamed (trace self.old) (trace self.new) };

    /// Waits until the disk holds the name.
    fn sync_folder(&mut self) -> io::Result<()>
        ensures step { Takes result folder_synced (trace self.old) (trace self.new) };

    /// Removes the file beside.
    fn remove(&mut self) -> io::Result<()>
        ensures step { Touches result removed (trace self.old) (trace self.new) };
}

/// Replaces the file at the name by one with these bytes. At each moment, and after a crash at any moment, the name holds what it
/// held or all of the bytes. At Ok the disk holds them. Err comes only if a call on the disk has failed.
pub fn replace<D: Disk>(disk: &mut D, bytes: &[u8]) -> io::Result<()>
    ensures whole { StaysWhole bytes.now (D.trace disk.old) (D.trace disk.new) }
    ensures stored { OnOk result (IfSome (D.trace disk.new) (λ t. IsStored bytes.now t.now)) }
    ensures cause { OnErr result (FailedMore (D.trace disk.old) (D.trace disk.new)) }
{
    disk.create()?;
    match put_in_place(disk, bytes) {
        Ok(()) => disk.sync_folder(),
        Err(error) => {
            let _ = disk.remove();
            Err(error)
        }
    }
}

/// Fills the file beside, and gives it the name.
fn put_in_place<D: Disk>(disk: &mut D, bytes: &[u8]) -> io::Result<()>
    ensures whole { StaysWhole bytes.now (D.trace disk.old) (D.trace disk.new) }
    ensures there { OnOk result (IfSome (D.trace disk.new) (λ t. HoldsSynced bytes.now t.now)) }
    ensures cause { OnErr result (FailedMore (D.trace disk.old) (D.trace disk.new)) }
{
    disk.write(bytes)?;
    disk.sync()?;
    disk.rename()
}
