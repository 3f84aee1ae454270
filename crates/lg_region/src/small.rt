//! Alternatives in few bytes: words, places and numbers of unlinked words are below 256.
ghost use Rattle.std.specs.Prelude.{◌≡◌, ◌<◌};
ghost use Rattle.lg_region.specs.Small.{full, full_joint, full_region, IsSmall, IsSmallJoint, IsSmallKey};

use crate::alternative::Alt;
use crate::key::{Joint, Key};

#[derive(Clone, Copy, Debug)]
pub(crate) struct SmallJoint {
    near: u8,
    far: u8,
}

#[derive(Clone, Copy, Debug)]
pub(crate) struct SmallRegion {
    left: u8,
    right: u8,
    nulls: u8,
    llist: u32,
    rlist: u32,
}

/// An alternative in 36 bytes.
#[derive(Clone, Copy, Debug)]
pub(crate) enum Small {
    AllNull,
    First {
        word: u8,
        disjunct: u32,
        rest: SmallRegion,
    },
    Cut {
        word: u8,
        disjunct: u32,
        to_left: Option<SmallJoint>,
        to_right: Option<SmallJoint>,
        before: SmallRegion,
        behind: SmallRegion,
    },
}

impl SmallJoint {
    fn of(joint: Option<Joint>) -> Option<SmallJoint>
        requires { IsSmallJoint joint }
        ensures { full_joint result ≡ joint }
    {
        let joint = joint?;
        Some(SmallJoint {
            near: joint.near as u8,
            far: joint.far as u8,
        })
    }

    fn full(joint: Option<SmallJoint>) -> Option<Joint>
        ensures { result ≡ full_joint joint }
    {
        let joint = joint?;
        Some(Joint {
            near: u32::from(joint.near),
            far: u32::from(joint.far),
        })
    }
}

impl SmallRegion {
    fn of(left: u32, right: u32, llist: u32, rlist: u32, nulls: u32) -> SmallRegion
        requires left { left < 256 }
        requires right { right < 256 }
        requires nulls { nulls < 256 }
        ensures { full_region result ≡ Key.Region left right llist rlist nulls }
    {
        SmallRegion {
            left: left as u8,
            right: right as u8,
            nulls: nulls as u8,
            llist,
            rlist,
        }
    }

    fn full(&self) -> Key
        ensures { result ≡ full_region self.now }
    {
        Key::Region {
            left: u32::from(self.left),
            right: u32::from(self.right),
            llist: self.llist,
            rlist: self.rlist,
            nulls: u32::from(self.nulls),
        }
    }
}

impl Small {
    /// The alternative in few bytes.
    pub(crate) fn of(alt: Alt) -> Small
        requires { IsSmall alt }
        ensures { full result ≡ alt }
    {
        let Alt::Split {
            word,
            disjunct,
            to_left,
            to_right,
            lkey,
            rkey,
        } = alt
        else {
            return Small::AllNull;
        };
        let Some(
            Key::Region {
                left,
                right,
                llist,
                rlist,
                nulls,
            },
        ) = rkey
        else {
            return Small::AllNull;
        };
        let behind = SmallRegion::of(left, right, llist, rlist, nulls);
        match lkey {
            Some(
                Key::Region {
                    left,
                    right,
                    llist,
                    rlist,
                    nulls,
                },
            ) => Small::Cut {
                word: word as u8,
                disjunct,
                to_left: SmallJoint::of(to_left),
                to_right: SmallJoint::of(to_right),
                before: SmallRegion::of(left, right, llist, rlist, nulls),
                behind,
            },
            _ => Small::First {
                word: word as u8,
                disjunct,
                rest: behind,
            },
        }
    }

    /// The alternative.
    pub(crate) fn full(&self) -> Alt
        ensures { result ≡ full self.now }
    {
        match self {
            Small::AllNull => Alt::AllNull,
            Small::First {
                word,
                disjunct,
                rest,
            } => Alt::Split {
                word: u32::from(*word),
                disjunct: *disjunct,
                to_left: None,
                to_right: None,
                lkey: None,
                rkey: Some(rest.full()),
            },
            Small::Cut {
                word,
                disjunct,
                to_left,
                to_right,
                before,
                behind,
            } => Alt::Split {
                word: u32::from(*word),
                disjunct: *disjunct,
                to_left: SmallJoint::full(*to_left),
                to_right: SmallJoint::full(*to_right),
                lkey: Some(before.full()),
                rkey: Some(behind.full()),
            },
        }
    }
}
