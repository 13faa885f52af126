//! A link that both ends accept.
ghost use Rattle.std.specs.Prelude.{◌≡◌, ◌≤◌, IfOk, IfErr};
ghost use Rattle.s2_mode.specs.Mode.{shape_in};
ghost use Rattle.s2_scramble.specs.Gold.{max_number};
ghost use Rattle.s2_link.specs.Limits.{max_roll_off};
ghost use Rattle.s2_link.specs.Link.{link_of, setup_of, IsSetUp, RefusesLink};

use crate::fault::SetupFault;
use crate::roll_off::RollOff;
use crate::setup::{LinkSetup, Setup};
use s2_matrix::Matrix;
use s2_mode::Mode;
use s2_scramble::ScramblingNumber;
use std::marker::Model;

/// What both ends of a link share: a setup, and the matrix of the address rows. Either end can be made from it.
#[derive(Drop)]
pub struct Link<'a> {
    setup: LinkSetup,
    matrix: &'a Matrix,
}

impl<'a> Model for Link<'a> {
    ghost use Rattle.std.specs.Prelude.{◌≡◌};
    ghost use Rattle.s2_mode.specs.Mode.{shape_in};
    ghost use Rattle.s2_link.specs.Link.{Link as LinkValue, link_of, setup_of};

    ghost Value = { LinkValue };

    ghost view = { λ l. link_of (setup_of l.setup) l.matrix.now };

    ghost invariant = { λ l. l.matrix.now.shape ≡ shape_in l.setup.mode };
}

impl<'a> Link<'a> {
    /// The link of a setup and a matrix. If there are several refusals, it returns the first. It takes no memory.
    ///
    /// - `OtherShape`: the matrix is not of the shape of the mode's code.
    /// - `BadNumber`: the scrambling number is over 262141.
    /// - `BadRollOff`: the roll-off is over 2.
    pub fn new(setup: Setup, matrix: &'a Matrix) -> Result<Link<'a>, SetupFault>
        ensures is { IfOk result (λ l. l ≡ link_of setup matrix.now) }
        ensures set_up { IfOk result (λ _. IsSetUp setup matrix.now) }
        ensures refuses { IfErr result (RefusesLink setup matrix.now) }
    {
        if matrix.shape() != setup.mode.shape() {
            return Err(SetupFault::OtherShape);
        }
        let Some(number) = ScramblingNumber::new(setup.number) else {
            return Err(SetupFault::BadNumber);
        };
        let Some(roll_off) = RollOff::new(setup.roll_off) else {
            return Err(SetupFault::BadRollOff);
        };
        let mode = setup.mode;
        Ok(Link {
            setup: LinkSetup {
                mode,
                number,
                roll_off,
            },
            matrix,
        })
    }

    /// The link of a setup whose numbers are in their ranges, and a matrix of its mode's shape.
    pub fn of(setup: LinkSetup, matrix: &'a Matrix) -> Link<'a>
        requires { matrix.now.shape ≡ shape_in setup.mode }
        ensures { result ≡ link_of (setup_of setup) matrix.now }
    {
        Link { setup, matrix }
    }

    /// The mode.
    pub fn mode(&self) -> Mode
        ensures is { result ≡ self.now.setup.mode }
        ensures shape { self.now.rows.shape ≡ shape_in result }
    {
        self.setup.mode
    }

    /// The scrambling number.
    pub fn number(&self) -> ScramblingNumber
        ensures is { result ≡ self.now.setup.number }
        ensures most { result ≤ max_number }
    {
        // the promise on the number is a part of this promise
        let _number = self.setup.number.get();
        self.setup.number
    }

    /// The roll-off.
    pub fn roll_off(&self) -> RollOff
        ensures is { result ≡ self.now.setup.roll_off }
        ensures most { result ≤ max_roll_off }
    {
        let _number = self.setup.roll_off.get();
        self.setup.roll_off
    }

    /// The mode, the scrambling number and the roll-off together.
    pub fn setup(&self) -> LinkSetup
        ensures { setup_of result ≡ self.now.setup }
    {
        self.setup
    }

    /// The matrix, whose shape is the mode's.
    pub fn matrix(&self) -> &'a Matrix
        ensures is { result.now ≡ self.now.rows }
        ensures shape { result.now.shape ≡ shape_in self.now.setup.mode }
    {
        self.matrix
    }
}
