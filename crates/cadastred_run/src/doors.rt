//! The sockets at which clients and the land office come.

ghost use Rattle.std.specs.Prelude.{◌≡◌, IfOk};

use cad_event_loop::{CLIENTS_DOOR, OFFICE_DOOR, PLACES};
use cad_mio::{MioNetwork, Places};
use mio::net::{TcpListener, UnixListener, UnixStream};
use std::alloc::Global;
use std::fs::{Files, Permissions, remove_file, set_permissions, symlink_metadata};
use std::io::{Error, ErrorKind, Result};
use std::net::{Net, SocketAddr};
use std::os::unix::fs::{FileTypeExt, PermissionsExt};
use std::time::Clock;

/// The rights of the office's socket: its owner and its group may write to it, and nobody else.
const OFFICE_MODE: u32 = 0o660;

/// The sockets at which clients and the land office come.
#[derive(Drop)]
pub struct Doors {
    clients: TcpListener,
    office: UnixListener,
    requested: SocketAddr,
}

/// Removes the socket that an earlier host left behind, which nobody answers. One that is answered is `AddrInUse`.
fn remove_left<N: Net + Files>(rt: &N, path: &str) -> Result<()> {
    let Ok(found) = symlink_metadata(rt, path) else {
        return Ok(());
    };
    if !found.file_type().is_socket() {
        return Err(Error::from(ErrorKind::AlreadyExists));
    }
    match UnixStream::connect(rt, path) {
        Ok(_) => Err(Error::from(ErrorKind::AddrInUse)),
        Err(error) => if error.kind() == ErrorKind::ConnectionRefused {
            remove_file(rt, path)
        } else {
            Err(error)
        },
    }
}

/// The office's socket, for its owner and group only.
fn open_office<N: Net + Files>(rt: &N, path: &str) -> Result<UnixListener> {
    remove_left(rt, path)?;
    let office = UnixListener::bind(rt, path)?;
    set_permissions(rt, path, Permissions::from_mode(OFFICE_MODE))?;
    Ok(office)
}

/// Why a socket is not bound.
#[derive(Clone, Copy, Debug, PartialEq, Eq)]
pub(crate) enum DoorFault {
    /// The address cannot be bound.
    Address,
    /// The office's path cannot be bound: another host is there, or another file, or the folder is missing or closed.
    Office,
}

impl Doors {
    ghost use Rattle.cadastred_run.specs.Doors.{address_requested};

    /// Binds both. The office's path may be that of a socket which a host left behind.
    pub(crate) fn open<N: Net + Files>(
        rt: &N,
        address: SocketAddr,
        office: &str,
    ) -> std::result::Result<Doors, DoorFault>
        ensures { IfOk result (λ doors. address_requested doors ≡ address) }
    {
        let Ok(clients) = TcpListener::bind(rt, address) else {
            return Err(DoorFault::Address);
        };
        match open_office(rt, office) {
            Ok(office) => Ok(Doors {
                clients,
                office,
                requested: address,
            }),
            Err(_) => Err(DoorFault::Office),
        }
    }

    /// The address that was requested for clients.
    pub fn requested(&self) -> SocketAddr
        ensures { result ≡ address_requested self.now }
    {
        self.requested
    }

    /// The address at which clients come.
    pub fn address(&self) -> Result<SocketAddr> {
        self.clients.local_addr()
    }

    /// A network at these sockets.
    pub fn into_network<'a, C: Net + Clock>(
        self,
        rt: &'a C,
        alloc: Global,
    ) -> Result<MioNetwork<'a, C>> {
        let places = Places {
            clients_door: CLIENTS_DOOR,
            office_door: OFFICE_DOOR,
            count: PLACES,
        };
        MioNetwork::new(rt, alloc, self.clients, self.office, places)
    }
}

/// Removes the office's socket, if possible.
pub fn remove_door<N: Files>(rt: &N, office: &str) {
    let _ = remove_file(rt, office);
}
