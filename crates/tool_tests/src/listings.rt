//! Listings, as they are printed; those that aren't printed are of the first form.

/// The listing of the file ONE_CLASS.
pub static ONE_CLASS_LISTED: &[u8] = b"\
dex 035 listing 2
class LA; 0x1
super Ljava/lang/Object;
direct m ()V 0x9
code 1 0 0
return-void
end code
end class
";

/// The same listing in the first form.
pub static ONE_CLASS_NUMBERED: &[u8] = b"\
dex 035
class LA; 0x1
super Ljava/lang/Object;
direct m ()V 0x9
code 1 0 0
0: return-void
end code
end class
";

/// A class whose superclass is a later one.
pub static LATER_SUPERCLASS_LISTED: &[u8] = b"\
dex 035 listing 2
class LA; 0x1
super LB;
end class
class LB; 0x1
end class
";

/// A try with neither catch nor catchall.
pub static BARE_TRY: &[u8] = b"\
dex 035
class LA; 0x1
direct m ()V 0x9
code 1 0 0
0: return-void
try @0 @1
end code
end class
";

/// A string of a quote, a backslash, a unit above ASCII and a line feed.
pub static ESCAPED: &[u8] = b"\
dex 035 listing 2
class LA; 0x1
static s Ljava/lang/String; 0x9 = string \"\\\"\\\\\\u00e9\\u000a\"
end class
";

/// A switch payload at an odd address.
pub static ODD_PAYLOAD: &[u8] = b"\
dex 035
class LA; 0x1
direct m ()V 0x9
code 1 0 0
0: packed-switch v0 @1
1: packed-switch-payload 0 @0
end code
end class
";

/// The same program with its payload after a nop.
pub static EVEN_PAYLOAD: &[u8] = b"\
dex 035 listing 2
class LA; 0x1
direct m ()V 0x9
code 1 0 0
:L0
packed-switch v0 :L2
nop
:L2
packed-switch-payload 0 :L0
end code
end class
";
