//! Bytes that a program reads in pieces, and lists that it gets as far as they fit.

ghost use Rattle.std.specs.Prelude.{◌≡◌, ◌≤◌, [], drop, length, min};
ghost use Rattle.puffin_c.specs.Reporting.{laid_over};

use std::alloc::Global;
use std::io::Read;
use std::marker::Model;

/// Copies the items to the front of `out`, as many as fit, and returns how many were copied.
pub(crate) fn lay_over<T: Copy>(items: &[T], out: &mut [T]) -> usize
    ensures out { out.new ≡ laid_over out.old items.now }
    ensures number { result ≡ min (length items.now) (length out.old) }
{
    let number = items.len().min(out.len());
    out[..number].copy_from_slice(&items[..number]);
    number
}

/// Bytes that are read from the front. Contracts see the unread ones.
#[derive(Drop)]
pub(crate) struct Unread {
    bytes: Vec<u8>,
    read: usize,
}

impl Model for Unread {
    ghost use Rattle.std.specs.Prelude.{ℕ, ◌≤◌, List, drop, length};

    ghost Value = { List ℕ };

    ghost view = { λ u. drop u.read u.bytes.items };

    ghost invariant = { λ u. u.read ≤ length u.bytes.items };
}

/// What a program reads in pieces: the file of the view, or the packet of its newest frame.
#[derive(Clone, Copy)]
pub(crate) enum Piece {
    File,
    Packet,
}

/// The unread bytes of the file, and of the packet.
#[derive(Drop)]
pub(crate) struct Pieces {
    pub(crate) file: Unread,
    pub(crate) packet: Unread,
}

impl Pieces {
    ghost use Rattle.puffin_c.specs.Pieces.{unread_in, pieces_with};

    /// Replaces the unread bytes.
    pub(crate) fn put(&mut self, piece: Piece, bytes: Vec<u8>)
        ensures { self.new ≡ pieces_with piece self.old bytes.items }
    {
        match piece {
            Piece::File => self.file = Unread::of(bytes),
            Piece::Packet => self.packet = Unread::of(bytes),
        }
    }

    /// Reads as many bytes as fit into `out`, and returns how many.
    pub(crate) fn read(&mut self, piece: Piece, out: &mut [u8]) -> usize
        ensures out { out.new ≡ laid_over out.old (unread_in piece self.old) }
        ensures number { result ≡ min (length (unread_in piece self.old)) (length out.old) }
        ensures left { self.new
            ≡ pieces_with piece self.old (drop result (unread_in piece self.old)) }
    {
        match piece {
            Piece::File => self.file.read(out),
            Piece::Packet => self.packet.read(out),
        }
    }
}

impl Unread {
    /// Makes a reader of no bytes.
    pub(crate) fn nothing(alloc: Global) -> Unread
        ensures { result ≡ [] }
    {
        Unread {
            bytes: Vec::new(alloc),
            read: 0,
        }
    }

    /// Makes a reader of these bytes.
    pub(crate) fn of(bytes: Vec<u8>) -> Unread
        ensures { result ≡ bytes.items }
    {
        Unread { bytes, read: 0 }
    }

    /// Reads as many bytes as fit into `out`, and returns how many.
    pub(crate) fn read(&mut self, out: &mut [u8]) -> usize
        ensures out { out.new ≡ laid_over out.old self.old }
        ensures number { result ≡ min (length self.old) (length out.old) }
        ensures left { self.new ≡ drop result self.old }
    {
        let number = lay_over(&self.bytes[self.read..], out);
        self.read += number;
        number
    }
}
