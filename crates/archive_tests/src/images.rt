// Images of stores, and the archives that another program made of the same subvolumes: bytes, each
// with so many zero bytes behind them.

// A store with all kinds of inodes, a hard link whose first path comes later, and an owner above 2^21.
pub(crate) const KINDS_IMAGE: &[(&[u8], usize)] = &[
    (
        b"sndstore\x01\0\0\0\0\0\0\0\0\x01\0\0\x010\0\0\0\0\0\0\0\x01%\0\0\0\x01\0\xebz\x8b=\x01\0\x10\0\"\"\"\"\"\"\"\"\"\"\"\"\"\"\"\"\x02\0\x08\0\x07\0\0\0\0\0\0\0\x0f\0\x01\0t\x01\x80\x01\0\0\0\0\0\0\x02\"\"\"\"\"\"\"\"\"\"\"\"\"\"\"\"\x01\x05\0\0\0\x04\0\xc4\xdeJ\xc4\x0f\0\x01\0d\x11\0\0\0\x12\0'\x90\x1f*\x05\0\x08\0\xed\x01\0\0\0\0\0\0\x0f\0\x01\0d\x14\0\0\0\x0d\0\x8f\xb4T\xf9\x0d\0\x06\0user.k\x0e\0\x01\0v\x0f\0\x01\0d%\0\0\0\x14\0\x96>\x14c\n\0\x0c\0\x03\0\0\0\0\0\0\0\xff\xc9\x9a;\x0b\0\x0c\0\x04\0\0\0\0\0\0\0\x07\0\0\0\x0f\0\x01\0d\x07\0\0\0\x03\0\x04o\xf8\xf9\x0f\0\x03\0d/y\x1d\0\0\0\x0f\0\xecJ\xe1:\x0f\0\x03\0d/y\x12\0\x08",
        9,
    ),
    (
        b"\x13\0\x06\0hello\n\x0d\0\0\0\n\0#a\xc6\xc6\x0f\0\x02\0d-\x11\0\x03\0d/y\x1e\0\0\0\x13\0\xc7f\xb4\x95\x06\0\x08\0\xc0\xc6-\0\0\0\0\0\x07\0\x08\0\x07\0\0\0\0\0\0\0\x0f\0\x02\0d-\n\0\0\0\x08\0\x86\xe8!\xc1\x0f\0\x01\0l\x11\0\x01\0d\x1d\0\0\0\x05\0\xdd*\xaa\x9f\x05\0\x08\0\xa4!\0\0\0\0\0\0\x08\0\x08\0\x05,\x11\x11\0\0\0\0\x0f\0\x01\0n\x1d\0\0\0\x05\0\xb3\xb3k\xc8\x05\0\x08\0\xa4a\0\0\0\0\0\0\x08\0\x08\0\x01\x08\0\0\0\0\0\0\x0f\0\x01\0o\x05\0\0\0\x06\0\xc7\x17\x818\x0f\0\x01\0p\x05\0\0\0\x07\0\xf2\x13\xa0\xbc\x0f\0\x01\0s\0",
        0,
    ),
];

// Its archive.
pub(crate) const KINDS_ARCHIVE: &[(&[u8], usize)] = &[
    (b"./@PaxHeader", 88),
    (
        b"0000644\00000000\00000000\000000000052\000000000000\0011333\0 x",
        100,
    ),
    (b"ustar\000", 64),
    (b"0000000\00000000", 168),
    (b"21 mtime=0.000000000\n21 atime=0.000000000\n", 470),
    (b"./", 98),
    (
        b"0000700\00000000\00000000\000000000000\000000000000\0007330\0 5",
        100,
    ),
    (b"ustar\000", 64),
    (b"0000000\00000000", 168),
    (b"./@PaxHeader", 88),
    (
        b"0000644\00000000\00000000\000000000103\000000000000\0011330\0 x",
        100,
    ),
    (b"ustar\000", 64),
    (b"0000000\00000000", 168),
    (
        b"21 mtime=3.999999999\n21 atime=4.000000007\n25 SCHILY.xattr.user.k=v\n",
        445,
    ),
    (b"./d/", 96),
    (
        b"0000755\00000000\00000000\000000000000\000000000003\0007570\0 5",
        100,
    ),
    (b"ustar\000", 64),
    (b"0000000\00000000", 168),
    (b"./@PaxHeader", 88),
    (
        b"0000644\00000000\00000000\000000000071\000000000000\0011334\0 x",
        100,
    ),
    (b"ustar\000", 64),
    (b"0000000\00000000", 168),
    (
        b"15 uid=3000000\n21 mtime=0.000000000\n21 atime=0.000000000\n",
        455,
    ),
    (b"./d-", 96),
    (
        b"0000600\00000000\00000007\000000000006\000000000000\0007560\0 0",
        100,
    ),
    (b"ustar\000", 64),
    (b"0000000\00000000", 168),
    (b"hello\n", 506),
    (b"./@PaxHeader", 88),
    (
        b"0000644\00000000\00000000\000000000071\000000000000\0011334\0 x",
        100,
    ),
    (b"ustar\000", 64),
    (b"0000000\00000000", 168),
    (
        b"15 uid=3000000\n21 mtime=0.000000000\n21 atime=0.000000000\n",
        455,
    ),
    (b"./d/y", 95),
    (
        b"0000600\00000000\00000007\000000000000\000000000000\0010324\0 1./d-",
        96,
    ),
    (b"ustar\000", 64),
    (b"0000000\00000000", 168),
    (b"./@PaxHeader", 88),
    (
        b"0000644\00000000\00000000\000000000052\000000000000\0011333\0 x",
        100,
    ),
    (b"ustar\000", 64),
    (b"0000000\00000000", 168),
    (b"21 mtime=0.000000000\n21 atime=0.000000000\n", 470),
    (b"./l", 97),
    (
        b"0000777\00000000\00000000\000000000000\000000000000\0007663\0 2d",
        99,
    ),
    (b"ustar\000", 64),
    (b"0000000\00000000", 168),
    (b"./@PaxHeader", 88),
    (
        b"0000644\00000000\00000000\000000000052\000000000000\0011333\0 x",
        100,
    ),
    (b"ustar\000", 64),
    (b"0000000\00000000", 168),
    (b"21 mtime=0.000000000\n21 atime=0.000000000\n", 470),
    (b"./n", 97),
    (
        b"0000600\00000000\00000000\000000000000\000000000000\0007534\0 3",
        100,
    ),
    (b"ustar\000", 64),
    (b"0000454\00210405", 168),
    (b"./@PaxHeader", 88),
    (
        b"0000644\00000000\00000000\000000000052\000000000000\0011333\0 x",
        100,
    ),
    (b"ustar\000", 64),
    (b"0000000\00000000", 168),
    (b"21 mtime=0.000000000\n21 atime=0.000000000\n", 470),
    (b"./o", 97),
    (
        b"0000600\00000000\00000000\000000000000\000000000000\0007507\0 4",
        100,
    ),
    (b"ustar\000", 64),
    (b"0000010\00000001", 168),
    (b"./@PaxHeader", 88),
    (
        b"0000644\00000000\00000000\000000000052\000000000000\0011333\0 x",
        100,
    ),
    (b"ustar\000", 64),
    (b"0000000\00000000", 168),
    (b"21 mtime=0.000000000\n21 atime=0.000000000\n", 470),
    (b"./p", 97),
    (
        b"0000600\00000000\00000000\000000000000\000000000000\0007510\0 6",
        100,
    ),
    (b"ustar\000", 64),
    (b"0000000\00000000", 1192),
];

// A store with long and odd names, a time before 1970 and an attribute with signs in its name.
pub(crate) const NAMES_IMAGE: &[(&[u8], usize)] = &[(
    b"sndstore\x01\0\0\0\0\0\0\0\0\x01\0\0\x010\0\0\0\0\0\0\0\x01%\0\0\0\x01\0\xebz\x8b=\x01\0\x10\0\"\"\"\"\"\"\"\"\"\"\"\"\"\"\"\"\x02\0\x08\0\x07\0\0\0\0\0\0\0\x0f\0\x01\0t\x01+\x02\0\0\0\0\0\0\x02\"\"\"\"\"\"\"\"\"\"\"\"\"\"\"\"\x01\x05\0\0\0\x03\0\x8c\x96\xda\x1b\x0f\0\x01\0a\x1b\0\0\0\x0d\0A\x94{O\x0d\0\n\0user.a=b%c\x0e\0\x04\01\0\n2\x0f\0\x01\0a%\0\0\0\x14\0\xefS\xdf\xe6\n\0\x0c\0\xfb\xff\xff\xff\xff\xff\xff\xff\x80\xb2\xe6\x0e\x0b\0\x0c\0\xfb\xff\xff\xff\xff\xff\xff\xff\0\0\0\0\x0f\0\x01\0a\x11\0\0\0\x12\0\xde\xb2\xc4R\x05\0\x08\0\xe9\x09\0\0\0\0\0\0\x0f\0\x01\0a\x06\0\0\0\x03\0T\x8e\xbf\xd1\x0f\0\x02\0\xff\xfe\x8c\0\0\0\n\0.O|\xfb\x0f\0\x82\0zzzzzzzzzzzzzzzzzzzzzzzzzzzzzzzzzzzzzzzzzzzzzzzzzzzzzzzzzzzzzzzzzzzzzzzzzzzzzzzzzzzzzzzzzzzzzzzzzzzzzzzzzzzzzzzzzzzzzzzzzzzzzzzzzz\x11\0\x02\0\xff\xfe\x0b\0\0\0\x08\0\x94Y\xf7\xf0\x0f\0\x01\0q\x11\0\x02\0\xc3\xa9f\0\0\0\x04\0.\xfa]s\x0f\0b\0eeeeeeeeeeeeeeeeeeeeeeeeeeeeeeeeeeeeeeeeeeeeeeeeeeeeeeeeeeeeeeeeeeeeeeeeeeeeeeeeeeeeeeeeeeeeeeeeeef\0\0\0\x03\0uqs\xba\x0f\0b\0ffffffffffffffffffffffffffffffffffffffffffffffffffffffffffffffffffffffffffffffffffffffffffffffffff\0",
    0,
)];

// Its archive.
pub(crate) const NAMES_ARCHIVE: &[(&[u8], usize)] = &[
    (b"./@PaxHeader", 88),
    (
        b"0000644\00000000\00000000\000000000052\000000000000\0011333\0 x",
        100,
    ),
    (b"ustar\000", 64),
    (b"0000000\00000000", 168),
    (b"21 mtime=0.000000000\n21 atime=0.000000000\n", 470),
    (b"./", 98),
    (
        b"0000700\00000000\00000000\000000000000\000000000000\0007330\0 5",
        100,
    ),
    (b"ustar\000", 64),
    (b"0000000\00000000", 168),
    (b"./@PaxHeader", 88),
    (
        b"0000644\00000000\00000000\000000000120\000000000000\0011327\0 x",
        100,
    ),
    (b"ustar\000", 64),
    (b"0000000\00000000", 168),
    (
        b"22 mtime=-4.750000000\n22 atime=-5.000000000\n36 SCHILY.xattr.user.a%3Db%25c=1\0\n2\n",
        432,
    ),
    (b"./a", 97),
    (
        b"0004751\00000000\00000000\000000000000\000000000000\0007476\0 0",
        100,
    ),
    (b"ustar\000", 64),
    (b"0000000\00000000", 168),
    (b"./@PaxHeader", 88),
    (
        b"0000644\00000000\00000000\000000000231\000000000000\0011332\0 x",
        100,
    ),
    (b"ustar\000", 64),
    (b"0000000\00000000", 168),
    (
        b"111 path=./eeeeeeeeeeeeeeeeeeeeeeeeeeeeeeeeeeeeeeeeeeeeeeeeeeeeeeeeeeeeeeeeeeeeeeeeeeeeeeeeeeeeeeeeeeeeeeeeee/\n21 mtime=0.000000000\n21 atime=0.000000000\n",
        359,
    ),
    (
        b"./eeeeeeeeeeeeeeeeeeeeeeeeeeeeeeeeeeeeeeeeeeeeeeeeeeeeeeeeeeeeeeeeeeeeeeeeeeeeeeeeeeeeeeeeeeeeeeeeee0000700\00000000\00000000\000000000000\000000000000\0032602\0 5",
        100,
    ),
    (b"ustar\000", 64),
    (b"0000000\00000000", 168),
    (b"./@PaxHeader", 88),
    (
        b"0000644\00000000\00000000\000000000052\000000000000\0011333\0 x",
        100,
    ),
    (b"ustar\000", 64),
    (b"0000000\00000000", 168),
    (b"21 mtime=0.000000000\n21 atime=0.000000000\n", 470),
    (
        b"./ffffffffffffffffffffffffffffffffffffffffffffffffffffffffffffffffffffffffffffffffffffffffffffffffff0000600\00000000\00000000\000000000000\000000000000\0032736\0 0",
        100,
    ),
    (b"ustar\000", 64),
    (b"0000000\00000000", 168),
    (b"./@PaxHeader", 88),
    (
        b"0000644\00000000\00000000\000000000116\000000000000\0011334\0 x",
        100,
    ),
    (b"ustar\000", 64),
    (b"0000000\00000000", 168),
    (
        b"21 hdrcharset=BINARY\n15 linkpath=\xc3\xa9\n21 mtime=0.000000000\n21 atime=0.000000000\n",
        434,
    ),
    (b"./q", 97),
    (
        b"0000777\00000000\00000000\000000000000\000000000000\0010300\0 2\xc3\xa9",
        98,
    ),
    (b"ustar\000", 64),
    (b"0000000\00000000", 168),
    (b"./@PaxHeader", 88),
    (
        b"0000644\00000000\00000000\000000000270\000000000000\0011335\0 x",
        100,
    ),
    (b"ustar\000", 64),
    (b"0000000\00000000", 168),
    (
        b"142 path=./zzzzzzzzzzzzzzzzzzzzzzzzzzzzzzzzzzzzzzzzzzzzzzzzzzzzzzzzzzzzzzzzzzzzzzzzzzzzzzzzzzzzzzzzzzzzzzzzzzzzzzzzzzzzzzzzzzzzzzzzzzzzzzzzzz\n21 mtime=0.000000000\n21 atime=0.000000000\n",
        328,
    ),
    (
        b"./zzzzzzzzzzzzzzzzzzzzzzzzzzzzzzzzzzzzzzzzzzzzzzzzzzzzzzzzzzzzzzzzzzzzzzzzzzzzzzzzzzzzzzzzzzzzzzzzzz0000600\00000000\00000000\000000000000\000000000000\0036606\0 0",
        100,
    ),
    (b"ustar\000", 64),
    (b"0000000\00000000", 168),
    (b"./@PaxHeader", 88),
    (
        b"0000644\00000000\00000000\000000000336\000000000000\0011340\0 x",
        100,
    ),
    (b"ustar\000", 64),
    (b"0000000\00000000", 168),
    (
        b"21 hdrcharset=BINARY\n13 path=./\xff\xfe\n146 linkpath=./zzzzzzzzzzzzzzzzzzzzzzzzzzzzzzzzzzzzzzzzzzzzzzzzzzzzzzzzzzzzzzzzzzzzzzzzzzzzzzzzzzzzzzzzzzzzzzzzzzzzzzzzzzzzzzzzzzzzzzzzzzzzzzzzzz\n21 mtime=0.000000000\n21 atime=0.000000000\n",
        290,
    ),
    (b"./\xff\xfe", 96),
    (
        b"0000600\00000000\00000000\000000000000\000000000000\0037741\0 1./zzzzzzzzzzzzzzzzzzzzzzzzzzzzzzzzzzzzzzzzzzzzzzzzzzzzzzzzzzzzzzzzzzzzzzzzzzzzzzzzzzzzzzzzzzzzzzzzzzustar\000",
        64,
    ),
    (b"0000000\00000000", 1192),
];

// A store with files with holes, one of them of 2^40 bytes.
pub(crate) const HOLES_IMAGE: &[(&[u8], usize)] = &[
    (
        b"sndstore\x01\0\0\0\0\0\0\0\0\x01\0\0\x010\0\0\0\0\0\0\0\x01%\0\0\0\x01\0\xebz\x8b=\x01\0\x10\0\"\"\"\"\"\"\"\"\"\"\"\"\"\"\"\"\x02\0\x08\0\x07\0\0\0\0\0\0\0\x0f\0\x01\0t\x01\xdd\x03\0\0\0\0\0\0\x02\"\"\"\"\"\"\"\"\"\"\"\"\"\"\"\"\x01\x05\0\0\0\x03\0\x8c\x96\xda\x1b\x0f\0\x01\0a3\0\0\0\x0f\01\xc8\xa1=\x0f\0\x01\0a\x12\0\x08\0\xe8\x03\0\0\0\0\0\0\x13\0\x1e\0xxxxxxxxxxxxxxxxxxxxxxxxxxxxxx\x11\0\0\0\x11\0$\xae\\\\\x04\0\x08\0\x88\x13\0\0\0\0\0\0\x0f\0\x01\0a\x05\0\0\0\x03\0xe\x8a\x08\x0f\0\x01\0bm\x02\0\0\x0f\0\x12\xc8F\xd4\x0f\0\x01\0b\x12\0\x08",
        9,
    ),
    (
        b"\x13\0X\x02yyyyyyyyyyyyyyyyyyyyyyyyyyyyyyyyyyyyyyyyyyyyyyyyyyyyyyyyyyyyyyyyyyyyyyyyyyyyyyyyyyyyyyyyyyyyyyyyyyyyyyyyyyyyyyyyyyyyyyyyyyyyyyyyyyyyyyyyyyyyyyyyyyyyyyyyyyyyyyyyyyyyyyyyyyyyyyyyyyyyyyyyyyyyyyyyyyyyyyyyyyyyyyyyyyyyyyyyyyyyyyyyyyyyyyyyyyyyyyyyyyyyyyyyyyyyyyyyyyyyyyyyyyyyyyyyyyyyyyyyyyyyyyyyyyyyyyyyyyyyyyyyyyyyyyyyyyyyyyyyyyyyyyyyyyyyyyyyyyyyyyyyyyyyyyyyyyyyyyyyyyyyyyyyyyyyyyyyyyyyyyyyyyyyyyyyyyyyyyyyyyyyyyyyyyyyyyyyyyyyyyyyyyyyyyyyyyyyyyyyyyyyyyyyyyyyyyyyyyyyyyyyyyyyyyyyyyyyyyyyyyyyyyyyyyyyyyyyyyyyyyyyyyyyyyyyyyyyyyyyyyyyyyyyyyyyyyyyyyyyyyyyyyyyyyyyyyyyyyyyyyyyyyyyyyyyyyyyyyyyyyyyyyyyyyyyyyyyyyyy\x16\0\0\0\x0f\0xV+\xc3\x0f\0\x01\0b\x12\0\x08\0\0\x08\0\0\0\0\0\0\x13\0\x01\0z\x05\0\0\0\x03\0{\xe6\xe1\xfa\x0f\0\x01\0c\x11\0\0\0\x11\04\x1d\xcb\\\x04\0\x08\0\x01\0\0\0\0\0\0\0\x0f\0\x01\0c\x05\0\0\0\x03\0dq{=\x0f\0\x01\0g\x11\0\0\0\x11\0i\xcf\xbf\xe2\x04\0\x08\0\0\0\0\0\0\x01\0\0\x0f\0\x01\0g\x16\0\0\0\x0f\0\xb6\xc2\xc4f\x0f\0\x01\0g\x12\0\x08\0\0\0\0\0\x80\0\0\0\x13\0\x01\0w\x05\0\0\0\x03\0\x0b\xb6%-\x0f\0\x01\0w\x16\0\0\0\x0f\0A(\xf8\x89\x0f\0\x01\0w\x12\0\x08\0\n\0\0\0\0\0\0\0\x13\0\x01\0k\x11\0\0\0\x11\0T\xf89X\x04\0\x08\0\xf4\x01\0\0\0\0\0\0\x0f\0\x01\0w\0",
        0,
    ),
];

// Its archive.
pub(crate) const HOLES_ARCHIVE: &[(&[u8], usize)] = &[
    (b"./@PaxHeader", 88),
    (
        b"0000644\00000000\00000000\000000000052\000000000000\0011333\0 x",
        100,
    ),
    (b"ustar\000", 64),
    (b"0000000\00000000", 168),
    (b"21 mtime=0.000000000\n21 atime=0.000000000\n", 470),
    (b"./", 98),
    (
        b"0000700\00000000\00000000\000000000000\000000000000\0007330\0 5",
        100,
    ),
    (b"ustar\000", 64),
    (b"0000000\00000000", 168),
    (b"./@PaxHeader", 88),
    (
        b"0000644\00000000\00000000\000000000211\000000000000\0011330\0 x",
        100,
    ),
    (b"ustar\000", 64),
    (b"0000000\00000000", 168),
    (
        b"22 GNU.sparse.major=1\n22 GNU.sparse.minor=0\n23 GNU.sparse.name=./a\n28 GNU.sparse.realsize=5000\n21 mtime=0.000000000\n21 atime=0.000000000\n",
        375,
    ),
    (b"./a", 97),
    (
        b"0000600\00000000\00000000\000000003000\000000000000\0007466\0 0",
        100,
    ),
    (b"ustar\000", 64),
    (b"0000000\00000000", 168),
    (b"2\n512\n1024\n5000\n0\n", 982),
    (b"xxxxxxxxxxxxxxxxxxxxxxxxxxxxxx", 506),
    (b"./@PaxHeader", 88),
    (
        b"0000644\00000000\00000000\000000000211\000000000000\0011330\0 x",
        100,
    ),
    (b"ustar\000", 64),
    (b"0000000\00000000", 168),
    (
        b"22 GNU.sparse.major=1\n22 GNU.sparse.minor=0\n23 GNU.sparse.name=./b\n28 GNU.sparse.realsize=2049\n21 mtime=0.000000000\n21 atime=0.000000000\n",
        375,
    ),
    (b"./b", 97),
    (
        b"0000600\00000000\00000000\000000003001\000000000000\0007470\0 0",
        100,
    ),
    (b"ustar\000", 64),
    (b"0000000\00000000", 168),
    (b"2\n0\n1024\n2048\n1\n", 496),
    (
        b"yyyyyyyyyyyyyyyyyyyyyyyyyyyyyyyyyyyyyyyyyyyyyyyyyyyyyyyyyyyyyyyyyyyyyyyyyyyyyyyyyyyyyyyyyyyyyyyyyyyyyyyyyyyyyyyyyyyyyyyyyyyyyyyyyyyyyyyyyyyyyyyyyyyyyyyyyyyyyyyyyyyyyyyyyyyyyyyyyyyyyyyyyyyyyyyyyyyyyyyyyyyyyyyyyyyyyyyyyyyyyyyyyyyyyyyyyyyyyyyyyyyyyyyyyyyyyyyyyyyyyyyyyyyyyyyyyyyyyyyyyyyyyyyyyyyyyyyyyyyyyyyyyyyyyyyyyyyyyyyyyyyyyyyyyyyyyyyyyyyyyyyyyyyyyyyyyyyyyyyyyyyyyyyyyyyyyyyyyyyyyyyyyyyyyyyyyyyyyyyyyyyyyyyyyyyyyyyyyyyyyyyyyyyyyyyyyyyyyyyyyyyyyyyyyyyyyyyyyyyyyyyyyyyyyyyyyyyyyyyyyyyyyyyyyyyyyyyyyyyyyyyyyyyyyyyyyyyyyyyyyyyyyyyyyyyyyyyyyyyyyyyyyyyyyyyyyyyyyyyyyyyyyyyyyyyyyyyyyyyyyyyyyyyyyyyyyyyyyyyy",
        424,
    ),
    (b"z", 511),
    (b"./@PaxHeader", 88),
    (
        b"0000644\00000000\00000000\000000000206\000000000000\0011334\0 x",
        100,
    ),
    (b"ustar\000", 64),
    (b"0000000\00000000", 168),
    (
        b"22 GNU.sparse.major=1\n22 GNU.sparse.minor=0\n23 GNU.sparse.name=./c\n25 GNU.sparse.realsize=1\n21 mtime=0.000000000\n21 atime=0.000000000\n",
        378,
    ),
    (b"./c", 97),
    (
        b"0000600\00000000\00000000\000000001000\000000000000\0007466\0 0",
        100,
    ),
    (b"ustar\000", 64),
    (b"0000000\00000000", 168),
    (b"1\n1\n0\n", 506),
    (b"./@PaxHeader", 88),
    (
        b"0000644\00000000\00000000\000000000222\000000000000\0011332\0 x",
        100,
    ),
    (b"ustar\000", 64),
    (b"0000000\00000000", 168),
    (
        b"22 GNU.sparse.major=1\n22 GNU.sparse.minor=0\n23 GNU.sparse.name=./g\n37 GNU.sparse.realsize=1099511627776\n21 mtime=0.000000000\n21 atime=0.000000000\n",
        366,
    ),
    (b"./g", 97),
    (
        b"0000600\00000000\00000000\000000002000\000000000000\0007473\0 0",
        100,
    ),
    (b"ustar\000", 64),
    (b"0000000\00000000", 168),
    (b"2\n549755813888\n512\n1099511627776\n0\n", 477),
    (b"w", 511),
    (b"./@PaxHeader", 88),
    (
        b"0000644\00000000\00000000\000000000052\000000000000\0011333\0 x",
        100,
    ),
    (b"ustar\000", 64),
    (b"0000000\00000000", 168),
    (b"21 mtime=0.000000000\n21 atime=0.000000000\n", 470),
    (b"./w", 97),
    (
        b"0000600\00000000\00000000\000000000764\000000000000\0007532\0 0",
        100,
    ),
    (b"ustar\000", 64),
    (b"0000000\00000000", 178),
    (b"k", 1525),
];
