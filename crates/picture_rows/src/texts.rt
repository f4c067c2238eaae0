// The texts of `examples/`, as `examples/rows.py` writes them.

/// An example: its script, its trace, and the SHA-256 of its picture.
pub(crate) struct Example {
    pub(crate) name: &'static str,
    pub(crate) script: &'static [u8],
    pub(crate) trace: &'static [u8],
    pub(crate) picture: &'static [u8; 32],
}

/// Each script of the folder that `play` plays.
pub(crate) static EXAMPLES: [Example; 15] = [
    Example {
        name: "alias",
        script: b"# Noise that imitates a right sector: the read is answered ok with wrong bytes, and only the noise line warns of it.\nunit 0 rp06\nwrite 1 0 c 5 1 fill 5a\ndrain\nnoise 0 5 1 0 9 11 21 30 32\nturn 0 0\nread 2 0 c 5 1\ndrain\nread 3 0 c 5 1\n",
        trace: b"cmd 3 0 1 wcom 5 1\nsector 4 0 1 5 clean\nintr 4 0 1\nend 4 0 1\ncmd 7 0 2 rcom 5 1\nsector 8 0 2 5 clean\nintr 8 0 2\nend 8 0 2\ncmd 9 0 3 search 0 2\narrive 10 0 3\nattn 10 0 3\ncmd 10 0 3 rcom 5 1\nsector 10 0 3 5 clean\nintr 10 0 3\nend 10 0 3\n",
        picture: b"\xf3\xe8\xc0\x97\x5b\x74\xcf\x6d\x4e\x5d\xf3\xf5\xa5\xfa\xfa\xef\x35\x5f\x6e\xec\x2a\x0c\xec\x6c\x36\xc5\xca\x69\xfe\xa5\xcb\x3b",
    },
    Example {
        name: "course-predict",
        script: b"# Predict the trace of this script, line by line, before you play it.\nunit 0 rp06\nread 1 0 c 420 3\nwrite 2 0 c 3 1 fill 22\narrive 0\nattend 0\nread 3 0 c 421 1 last 4\nturn 0 2\ndrain\n",
        trace: b"cmd 3 0 1 search 1 21\narrive 5 0 1\nattn 6 0 1\ncmd 6 0 1 rcom 420 3\nsector 9 0 1 420 clean\nsector 9 0 1 421 clean\nsector 9 0 1 422 clean\nintr 9 0 1\nend 9 0 1\ncmd 9 0 3 search 1 0\narrive 9 0 3\nattn 9 0 3\ncmd 9 0 3 rcom 421 1\nsector 9 0 3 421 clean\nintr 9 0 3\nend 9 0 3\ncmd 9 0 2 search 0 0\narrive 9 0 2\nattn 9 0 2\ncmd 9 0 2 wcom 3 1\nsector 9 0 2 3 clean\nintr 9 0 2\nend 9 0 2\nidle 10\n",
        picture: b"\xee\x67\xbc\x4e\x8a\xe6\x04\x7c\x7f\xe4\x64\x11\xd6\xe4\xbc\xbd\x90\x05\x00\xa9\xf0\xe1\xfd\xb4\x09\x29\x1e\xb4\x95\x7b\xc5\xaf",
    },
    Example {
        name: "course-seeks",
        script: b"# Three reads, one after another. Have three drives seek at the same time.\nunit 0 rp06\nunit 1 rp06\nunit 2 rp06\nread 1 0 c 4180 1\ndrain\nread 2 1 c 4180 1\ndrain\nread 3 2 c 4180 1\n",
        trace: b"cmd 5 0 1 search 10 19\narrive 6 0 1\nattn 6 0 1\ncmd 6 0 1 rcom 4180 1\nsector 6 0 1 4180 clean\nintr 6 0 1\nend 6 0 1\ncmd 7 1 2 search 10 19\narrive 8 1 2\nattn 8 1 2\ncmd 8 1 2 rcom 4180 1\nsector 8 1 2 4180 clean\nintr 8 1 2\nend 8 1 2\ncmd 9 2 3 search 10 19\narrive 10 2 3\nattn 10 2 3\ncmd 10 2 3 rcom 4180 1\nsector 10 2 3 4180 clean\nintr 10 2 3\nend 10 2 3\n",
        picture: b"\x56\xae\x1f\x5a\x08\xfa\x79\x19\x9f\x28\xa6\xfe\x32\x1f\x11\x45\x00\x15\x76\xfd\x30\x87\xed\xb4\x5b\xa8\xe5\xb9\xbd\x70\x4c\x1d",
    },
    Example {
        name: "course-starve",
        script: b"# Request 2 waits for the next sweep of the arm. Keep it waiting.\nunit 0 rp06\nread 1 0 c 4180 1\nread 2 0 c 2090 1\nread 3 0 c 8360 1\ndrain\n",
        trace: b"cmd 3 0 1 search 10 19\narrive 6 0 1\nattn 6 0 1\ncmd 6 0 1 rcom 4180 1\nsector 6 0 1 4180 clean\nintr 6 0 1\nend 6 0 1\ncmd 6 0 3 search 20 19\narrive 6 0 3\nattn 6 0 3\ncmd 6 0 3 rcom 8360 1\nsector 6 0 3 8360 clean\nintr 6 0 3\nend 6 0 3\ncmd 6 0 2 search 5 19\narrive 6 0 2\nattn 6 0 2\ncmd 6 0 2 rcom 2090 1\nsector 6 0 2 2090 clean\nintr 6 0 2\nend 6 0 2\nidle 7\n",
        picture: b"\xe4\x74\x14\x1c\x68\xe7\x29\xdb\xb9\xff\x1f\x6a\xd2\xe4\xb7\x8d\x2b\x3c\xed\x0f\x60\x45\x90\xfa\x53\x1a\xf7\x0b\x2f\xad\x24\x7c",
    },
    Example {
        name: "course-table",
        script: b"# A read of a listed block. Break the table's copies one by one: which one is read? Make the packs first: make-packs.sh.\nunit 0 rp06\nread 1 0 c 1000 1\n",
        trace: b"cmd 3 0 1 search 2 7\narrive 4 0 1\nattn 4 0 1\ncmd 4 0 1 rcom 1000 1\nsector 4 0 1 1000 mark\nintr 4 0 1\ncmd 4 0 1 dclr\ncmd 4 0 1 rcom 340647 1\nsector 4 0 1 340647 clean\nintr 4 0 1\nend 4 0 1\n",
        picture: b"\x21\x19\xeb\x90\x21\xc1\x28\x97\xee\x3f\x1d\x41\x0a\x6c\xb3\xcf\x96\x4b\x4d\x4d\x6f\xab\xaf\xad\x67\x41\x8c\x79\x3c\xd3\x0e\xb6",
    },
    Example {
        name: "course-tries",
        script: b"# A read that fails twice and is then right. Have 27 tries fail, and the read still be right.\nunit 0 rp06\nnoise 0 5 2 0 7 14\nread 1 0 c 5 1\n",
        trace: b"cmd 4 0 1 rcom 5 1\nsector 5 0 1 5 ecc\nintr 5 0 1\ncmd 5 0 1 dclr\ntry 5 0 1 5 1\ncmd 5 0 1 rcom 5 1\nsector 5 0 1 5 ecc\nintr 5 0 1\ncmd 5 0 1 dclr\ntry 5 0 1 5 2\ncmd 5 0 1 rcom 5 1\nsector 5 0 1 5 clean\nintr 5 0 1\nend 5 0 1\n",
        picture: b"\x09\x84\x61\x66\x24\x63\xb2\x88\xc2\x3e\x35\xb6\xe9\xc8\xbc\x18\x07\xdc\x5e\x88\xe1\x82\x33\xe2\x82\xc7\xab\xb3\xef\xa1\x1d\x13",
    },
    Example {
        name: "first-read",
        script: b"unit 0 rp06\nread 1 0 c 0 1\n",
        trace: b"cmd 2 0 1 search 0 19\narrive 3 0 1\nattn 3 0 1\ncmd 3 0 1 rcom 0 1\nsector 3 0 1 0 clean\nintr 3 0 1\nend 3 0 1\n",
        picture: b"\x8a\x40\xe0\x31\x1d\x7e\x1d\xb1\x74\x0d\x54\x7d\x51\xaf\x64\xb8\x8d\x66\x33\x6a\xc7\x63\xb8\x4b\x29\x47\xa3\x91\x4d\x7f\x0f\x37",
    },
    Example {
        name: "forward",
        script: b"# Block 1000 is bad, and the pack's table lists it: its bytes live at a replacement. Make the packs first: make-packs.sh.\nunit 0 rp06\nread 1 0 c 998 5\ndrain\nwrite 2 0 c 1000 1 fill 77\ndrain\nread 3 0 c 999 3\n",
        trace: b"cmd 3 0 1 search 2 5\narrive 4 0 1\nattn 4 0 1\ncmd 4 0 1 rcom 998 5\nsector 4 0 1 998 clean\nsector 4 0 1 999 clean\nsector 4 0 1 1000 mark\nintr 4 0 1\ncmd 4 0 1 dclr\ncmd 4 0 1 rcom 340647 1\nsector 4 0 1 340647 clean\nintr 4 0 1\ncmd 4 0 1 rcom 1001 2\nsector 4 0 1 1001 clean\nsector 4 0 1 1002 clean\nintr 4 0 1\nend 4 0 1\ncmd 5 0 2 search 2 7\narrive 6 0 2\nattn 6 0 2\ncmd 6 0 2 wcom 1000 1\nsector 6 0 2 1000 mark\nintr 6 0 2\ncmd 6 0 2 dclr\ncmd 6 0 2 wcom 340647 1\nsector 6 0 2 340647 clean\nintr 6 0 2\nend 6 0 2\ncmd 7 0 3 search 2 6\narrive 8 0 3\nattn 8 0 3\ncmd 8 0 3 rcom 999 3\nsector 8 0 3 999 clean\nsector 8 0 3 1000 mark\nintr 8 0 3\ncmd 8 0 3 dclr\ncmd 8 0 3 rcom 340647 1\nsector 8 0 3 340647 clean\nintr 8 0 3\ncmd 8 0 3 rcom 1001 1\nsector 8 0 3 1001 clean\nintr 8 0 3\nend 8 0 3\n",
        picture: b"\x58\x0a\xe6\x13\x84\x28\xdf\x33\x17\x0f\x60\x23\xe0\x50\x91\x4b\xc7\xa9\x06\x19\xf1\xa6\x52\xd2\xa1\xef\xd0\x39\xd6\x81\x55\x47",
    },
    Example {
        name: "offline",
        script: b"# A drive goes offline with one request positioning and one waiting, and comes back.\nunit 0 rp06\nread 1 0 c 418 1\noffline 0\nread 2 0 c 0 1\narrive 0\nattend 0\nonline 0\nread 3 0 c 0 1\n",
        trace: b"cmd 3 0 1 search 1 19\narrive 6 0 1\nattn 7 0 1\nend 7 0 1\nend 7 0 2\ncmd 9 0 3 pack\ncmd 9 0 3 search 0 19\narrive 10 0 3\nattn 10 0 3\ncmd 10 0 3 rcom 0 1\nsector 10 0 3 0 clean\nintr 10 0 3\nend 10 0 3\n",
        picture: b"\x1a\x94\x43\x85\xa9\x54\x58\x78\xde\xdb\x7a\x24\x3d\x1e\x7e\x68\xc5\xa7\x01\xfb\x40\x40\x0a\x6b\xd2\x6e\xa6\x7e\x04\x8b\xd6\x2e",
    },
    Example {
        name: "offset",
        script: b"# A read goes offline after OFFSET was issued and before its transfer: the offset stays, and the next write shows rtc.\nunit 0 rp06\nfault 0 opi 16\nread 1 0 c 5 1\nmove 0\nattend 0\nmove 0\nattend 0\nmove 0\nattend 0\nmove 0\nattend 0\narrive 0\nattend 0\nmove 0\nattend 0\nmove 0\nattend 0\nmove 0\nattend 0\nmove 0\nattend 0\nmove 0\nattend 0\nmove 0\nattend 0\nmove 0\nattend 0\nmove 0\nattend 0\narrive 0\nattend 0\nmove 0\nattend 0\nmove 0\nattend 0\nmove 0\nattend 0\nmove 0\nattend 0\noffline 0\narrive 0\nattend 0\nonline 0\nwrite 2 0 c 5 1 fill 77\n",
        trace: b"cmd 4 0 1 rcom 5 1\nsector 5 0 1 5 opi\nintr 6 0 1\ncmd 6 0 1 dclr\ntry 6 0 1 5 1\ncmd 6 0 1 rcom 5 1\nsector 7 0 1 5 opi\nintr 8 0 1\ncmd 8 0 1 dclr\ntry 8 0 1 5 2\ncmd 8 0 1 rcom 5 1\nsector 9 0 1 5 opi\nintr 10 0 1\ncmd 10 0 1 dclr\ntry 10 0 1 5 3\ncmd 10 0 1 rcom 5 1\nsector 11 0 1 5 opi\nintr 12 0 1\ncmd 12 0 1 dclr\ntry 12 0 1 5 4\ncmd 12 0 1 recal\narrive 13 0 1\nattn 14 0 1\ncmd 14 0 1 rcom 5 1\nsector 15 0 1 5 opi\nintr 16 0 1\ncmd 16 0 1 dclr\ntry 16 0 1 5 5\ncmd 16 0 1 rcom 5 1\nsector 17 0 1 5 opi\nintr 18 0 1\ncmd 18 0 1 dclr\ntry 18 0 1 5 6\ncmd 18 0 1 rcom 5 1\nsector 19 0 1 5 opi\nintr 20 0 1\ncmd 20 0 1 dclr\ntry 20 0 1 5 7\ncmd 20 0 1 rcom 5 1\nsector 21 0 1 5 opi\nintr 22 0 1\ncmd 22 0 1 dclr\ntry 22 0 1 5 8\ncmd 22 0 1 rcom 5 1\nsector 23 0 1 5 opi\nintr 24 0 1\ncmd 24 0 1 dclr\ntry 24 0 1 5 9\ncmd 24 0 1 rcom 5 1\nsector 25 0 1 5 opi\nintr 26 0 1\ncmd 26 0 1 dclr\ntry 26 0 1 5 10\ncmd 26 0 1 rcom 5 1\nsector 27 0 1 5 opi\nintr 28 0 1\ncmd 28 0 1 dclr\ntry 28 0 1 5 11\ncmd 28 0 1 rcom 5 1\nsector 29 0 1 5 opi\nintr 30 0 1\ncmd 30 0 1 dclr\ntry 30 0 1 5 12\ncmd 30 0 1 recal\narrive 31 0 1\nattn 32 0 1\ncmd 32 0 1 rcom 5 1\nsector 33 0 1 5 opi\nintr 34 0 1\ncmd 34 0 1 dclr\ntry 34 0 1 5 13\ncmd 34 0 1 rcom 5 1\nsector 35 0 1 5 opi\nintr 36 0 1\ncmd 36 0 1 dclr\ntry 36 0 1 5 14\ncmd 36 0 1 rcom 5 1\nsector 37 0 1 5 opi\nintr 38 0 1\ncmd 38 0 1 dclr\ntry 38 0 1 5 15\ncmd 38 0 1 rcom 5 1\nsector 39 0 1 5 opi\nintr 40 0 1\ncmd 40 0 1 dclr\ntry 40 0 1 5 16\ncmd 40 0 1 offset +400\narrive 42 0 1\nattn 43 0 1\nend 43 0 1\ncmd 45 0 2 pack\ncmd 45 0 2 wcom 5 1\nsector 46 0 2 5 clean\nintr 46 0 2\ncmd 46 0 2 rtc\nend 46 0 2\n",
        picture: b"\xa4\x3e\x79\x67\x29\xed\xe6\x54\xbf\xc6\xfd\x78\x31\x12\x57\xe1\xf3\xd2\xc2\xfa\xf7\x15\xa4\x55\xce\xcc\x0e\x3e\xd0\x4c\xd1\x0a",
    },
    Example {
        name: "overlap",
        script: b"# Two drives seek at the same time, while a third transfers.\nunit 0 rp06\nunit 1 rp06\nunit 2 rm03\nread 1 2 c 5 3\nread 2 0 c 4180 2\nwrite 3 1 c 8360 1 fill 33\nmove 0\narrive 1\nmove 0\narrive 0\nmove 0\nattend 0\n",
        trace: b"cmd 5 2 1 rcom 5 3\ncmd 6 0 2 search 10 19\ncmd 7 1 3 search 20 19\nsector 8 2 1 5 clean\narrive 9 1 3\nsector 10 2 1 6 clean\narrive 11 0 2\nsector 12 2 1 7 clean\nintr 13 2 1\nend 13 2 1\nattn 13 0 2\nattn 13 1 3\ncmd 13 0 2 rcom 4180 2\nsector 14 0 2 4180 clean\nsector 14 0 2 4181 clean\nintr 14 0 2\nend 14 0 2\ncmd 14 1 3 wcom 8360 1\nsector 14 1 3 8360 clean\nintr 14 1 3\nend 14 1 3\n",
        picture: b"\x9a\x68\x4a\x31\xdd\xc6\x87\x33\x71\x62\x65\x94\x62\x1d\x1d\xcb\x3e\x06\x7a\x0c\x72\xf1\xaa\xf1\x7a\x0e\x52\x0d\x26\xca\x89\x4c",
    },
    Example {
        name: "repair",
        script: b"# Two flipped bits that lie close together are repaired in memory.\nunit 0 rp06\nwrite 1 0 c 5 1 fill 5a\ndrain\nnoise 0 5 1 4 12\nturn 0 0\nread 2 0 c 5 1\n",
        trace: b"cmd 3 0 1 wcom 5 1\nsector 4 0 1 5 clean\nintr 4 0 1\nend 4 0 1\ncmd 7 0 2 rcom 5 1\nsector 8 0 2 5 burst 5 401\nintr 8 0 2\ncmd 8 0 2 dclr\nend 8 0 2\n",
        picture: b"\x69\x4d\x04\x5e\x28\xe5\x44\x1c\x1f\x44\xca\x81\xe9\x5a\x2c\x1f\xe3\x11\x9a\xec\x61\x73\x72\x07\xd0\x9f\xd9\xeb\x77\x24\x27\x38",
    },
    Example {
        name: "retries",
        script: b"# Noise that shows, until the sector is read at the offset -400: the read is tried again and again.\nunit 0 rp06\nnoise 0 5 until -400 0 7 14\nread 1 0 c 5 1\n",
        trace: b"cmd 4 0 1 rcom 5 1\nsector 5 0 1 5 ecc\nintr 5 0 1\ncmd 5 0 1 dclr\ntry 5 0 1 5 1\ncmd 5 0 1 rcom 5 1\nsector 5 0 1 5 ecc\nintr 5 0 1\ncmd 5 0 1 dclr\ntry 5 0 1 5 2\ncmd 5 0 1 rcom 5 1\nsector 5 0 1 5 ecc\nintr 5 0 1\ncmd 5 0 1 dclr\ntry 5 0 1 5 3\ncmd 5 0 1 rcom 5 1\nsector 5 0 1 5 ecc\nintr 5 0 1\ncmd 5 0 1 dclr\ntry 5 0 1 5 4\ncmd 5 0 1 recal\narrive 5 0 1\nattn 5 0 1\ncmd 5 0 1 rcom 5 1\nsector 5 0 1 5 ecc\nintr 5 0 1\ncmd 5 0 1 dclr\ntry 5 0 1 5 5\ncmd 5 0 1 rcom 5 1\nsector 5 0 1 5 ecc\nintr 5 0 1\ncmd 5 0 1 dclr\ntry 5 0 1 5 6\ncmd 5 0 1 rcom 5 1\nsector 5 0 1 5 ecc\nintr 5 0 1\ncmd 5 0 1 dclr\ntry 5 0 1 5 7\ncmd 5 0 1 rcom 5 1\nsector 5 0 1 5 ecc\nintr 5 0 1\ncmd 5 0 1 dclr\ntry 5 0 1 5 8\ncmd 5 0 1 rcom 5 1\nsector 5 0 1 5 ecc\nintr 5 0 1\ncmd 5 0 1 dclr\ntry 5 0 1 5 9\ncmd 5 0 1 rcom 5 1\nsector 5 0 1 5 ecc\nintr 5 0 1\ncmd 5 0 1 dclr\ntry 5 0 1 5 10\ncmd 5 0 1 rcom 5 1\nsector 5 0 1 5 ecc\nintr 5 0 1\ncmd 5 0 1 dclr\ntry 5 0 1 5 11\ncmd 5 0 1 rcom 5 1\nsector 5 0 1 5 ecc\nintr 5 0 1\ncmd 5 0 1 dclr\ntry 5 0 1 5 12\ncmd 5 0 1 recal\narrive 5 0 1\nattn 5 0 1\ncmd 5 0 1 rcom 5 1\nsector 5 0 1 5 ecc\nintr 5 0 1\ncmd 5 0 1 dclr\ntry 5 0 1 5 13\ncmd 5 0 1 rcom 5 1\nsector 5 0 1 5 ecc\nintr 5 0 1\ncmd 5 0 1 dclr\ntry 5 0 1 5 14\ncmd 5 0 1 rcom 5 1\nsector 5 0 1 5 ecc\nintr 5 0 1\ncmd 5 0 1 dclr\ntry 5 0 1 5 15\ncmd 5 0 1 rcom 5 1\nsector 5 0 1 5 ecc\nintr 5 0 1\ncmd 5 0 1 dclr\ntry 5 0 1 5 16\ncmd 5 0 1 offset +400\narrive 5 0 1\nattn 5 0 1\ncmd 5 0 1 rcom 5 1\nsector 5 0 1 5 ecc\nintr 5 0 1\ncmd 5 0 1 dclr\ncmd 5 0 1 rtc\ntry 5 0 1 5 17\ncmd 5 0 1 offset -400\narrive 5 0 1\nattn 5 0 1\ncmd 5 0 1 rcom 5 1\nsector 5 0 1 5 clean\nintr 5 0 1\ncmd 5 0 1 rtc\nend 5 0 1\n",
        picture: b"\x18\xf4\x00\xf6\xc8\x44\xd5\xba\xae\xb3\x3f\xd4\x6f\xa1\x69\xd9\x32\x39\x1c\x4a\xe2\xd1\x8b\x2a\x9d\xe3\x5e\xb8\x41\x74\x8b\x40",
    },
    Example {
        name: "sort",
        script: b"# Five reads of cylinders 10, 50, 20, 5 and 20: the sorted queue serves them in two sweeps.\nunit 0 rp06\nread 1 0 c 4180 1\nread 2 0 c 20900 1\nread 3 0 c 8360 1\nread 4 0 c 2090 1\nread 5 0 c 8360 1\n",
        trace: b"cmd 3 0 1 search 10 19\narrive 8 0 1\nattn 8 0 1\ncmd 8 0 1 rcom 4180 1\nsector 8 0 1 4180 clean\nintr 8 0 1\nend 8 0 1\ncmd 8 0 3 search 20 19\narrive 8 0 3\nattn 8 0 3\ncmd 8 0 3 rcom 8360 1\nsector 8 0 3 8360 clean\nintr 8 0 3\nend 8 0 3\ncmd 8 0 5 search 20 19\narrive 8 0 5\nattn 8 0 5\ncmd 8 0 5 rcom 8360 1\nsector 8 0 5 8360 clean\nintr 8 0 5\nend 8 0 5\ncmd 8 0 2 search 50 19\narrive 8 0 2\nattn 8 0 2\ncmd 8 0 2 rcom 20900 1\nsector 8 0 2 20900 clean\nintr 8 0 2\nend 8 0 2\ncmd 8 0 4 search 5 19\narrive 8 0 4\nattn 8 0 4\ncmd 8 0 4 rcom 2090 1\nsector 8 0 4 2090 clean\nintr 8 0 4\nend 8 0 4\n",
        picture: b"\xc5\xc6\xdd\x4c\x06\x8a\x16\x7c\x34\x47\xfa\x71\x3e\x5d\xb6\x8d\x2b\x0e\x0d\x93\xbf\x8f\x65\x15\xeb\xb9\x57\xb9\x1a\xc1\x40\x79",
    },
    Example {
        name: "write-then-read",
        script: b"unit 0 rp06\nwrite 1 0 c 418 2 fill 11\narrive 0\nattend 0\nmove 0\nmove 0\nattend 0\nread 2 0 c 418 2\n",
        trace: b"cmd 2 0 1 search 1 19\narrive 3 0 1\nattn 4 0 1\ncmd 4 0 1 wcom 418 2\nsector 5 0 1 418 clean\nsector 6 0 1 419 clean\nintr 7 0 1\nend 7 0 1\ncmd 8 0 2 search 1 19\narrive 9 0 2\nattn 9 0 2\ncmd 9 0 2 rcom 418 2\nsector 9 0 2 418 clean\nsector 9 0 2 419 clean\nintr 9 0 2\nend 9 0 2\n",
        picture: b"\x1f\x13\xb0\x83\x4a\x1c\x5e\x56\x59\xc1\x56\xa5\x54\x45\x23\xb7\x3c\x01\x57\x81\xde\xc0\xeb\xb2\xe7\x34\x0c\xc1\xbb\x34\x13\x39",
    },
];
