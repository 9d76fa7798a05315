// The rows, each with its item beside it, written from the pages of specs/ by tools/table.py. The checker computes that they are what the pages say.
pub const TABLE: [u64; 81] = [
    4263008, // opening: element syncword none 16 (cell SYNCWORD)
    1613533322153997, // opening: reject (Differs (cell SYNCWORD) (Word 2935)) 2
    4336704, // opening: element strmtyp none 2 (cell STRMTYP)
    54043195595555355, // opening: reject (Is (cell STRMTYP) 3) 3
    4471888, // opening: element substreamid none 3 (cell SUBSTREAMID)
    72058143659524651, // opening: reject (Above (cell SUBSTREAMID) 3) 4
    4634464, // opening: element frmsiz none 11 (cell FRMSIZ)
    9042385975711386, // opening: put (cell FRAME_END) (Let 16 16 (cell FRMSIZ))
    4728704, // opening: element fscod none 2 (cell FSCOD)
    1649288417901, // opening: reject (AtLeast (cell FSCOD) (Word 3)) 5
    4860224, // opening: element numblkscod none 2 (cell NUMBLKSCOD)
    44, // opening: derive Numblks
    5124096, // opening: element acmod none 3 (cell ACMOD)
    76, // opening: derive Nfchans
    5380160, // opening: element lfeon none 1 (cell LFEON)
    5525904, // opening: element bsid none 5 (cell BSID)
    108086408228373163, // opening: reject (Below (cell BSID) 11) 6
    8796118193453, // opening: reject (Over (cell BSID) (Word 16)) 6
    126100995724804779, // opening: reject (Among (cell BSID) (13 ∷ 14 ∷ [])) 7
    18014948198187640, // opening: when (Above (cell ACMOD) 2)
    9536, // opening: element dmixmod none 2 no
    36028798428250744, // opening: when (Among (cell ACMOD) (3 ∷ 5 ∷ 7 ∷ []))
    68719491184, // opening: element ltrtcmixlev (nth 0) 3 no
    137438967888, // opening: element lorocmixlev (nth 1) 3 no
    108, // opening: derive Fresh
    492, // opening: derive Defaults
    64527056, // opening: element skipl none 9 (cell SKIPL)
    4503632644955290, // opening: put (cell WIDTH) (Let 0 8 (cell SKIPL))
    3254554418219699, // opening: span skipfld WIDTH
    2322168558018830, // frame: each BLK (from 0) (upto NUMBLKS)
    565149110894746, // strategies: put (cell BLOCK) (Let 1 1 (cell BLK))
    285962, // strategies: put (at BLOCK_STARTS BLK) Here
    108791805491683826, // strategies: elements chexpstr (by CH) 2 (at2 CHEXPSTR CH BLK) CH 0 NFCHANS
    126806194995074338, // strategies: elements dithflag (by CH) 1 no CH 1 NFCHANS
    428, // strategies: derive Nrematbd
    36028797052519032, // strategies: when (Is (cell ACMOD) 2)
    70368745312782, // strategies: each BND (from 0) (Held (cell NREMATBD))
    2267742739009, // strategies: element rematflg (by BND) 1 no
    281474976874894, // strategies: each CH (from 0) (upto NFCHANS)
    54043745268582009, // strategies: when (Not (at2 CHEXPSTR CH BLK) 0)
    1718426034657, // strategies: element chbwcod (by CH) 6 (at CHBWCOD CH)
    32985387010861, // strategies: reject (Over (at CHBWCOD CH) (Word 60)) 9
    2199023685018, // strategies: put (at CHBWSENT CH) (number 1)
    460, // strategies: derive Endmants
    281474976874894, // sets: each CH (from 0) (upto NFCHANS)
    54043745268582009, // sets: when (Not (at2 CHEXPSTR CH BLK) 0)
    1718025602561, // sets: element exps_ch_0 (by CH) 4 (cell ABSEXP)
    1717987018239, // sets: exponents (slot_of CH) exps_ch (by CH)
    1717986928545, // sets: element gainrng (by CH) 2 no
    72057594054705816, // sets: when (Is (cell LFEON) 1)
    288233457, // sets: element lfeexpstr none 1 (at LFEEXPSTR BLK)
    36028797035776377, // sets: when (Is (at LFEEXPSTR BLK) 1)
    38684640, // sets: element lfeexps_0 none 4 (cell ABSEXP)
    26591, // sets: exponents (slot 6) lfeexps none
    40770288, // quantized: element snroffste none 1 (cell SNROFFSTE)
    54043195545228152, // quantized: when (Is (cell SNROFFSTE) 1)
    40920160, // quantized: element csnroffst none 6 (cell CSNROFFST)
    41306000, // quantized: element fsnroffst none 4 (cell BLKFSNROFFST)
    562971122114138, // quantized: fill FSNROFFST 7 0 1 (cell BLKFSNROFFST)
    524, // quantized: derive Allocation
    325258, // quantized: put (at MANTISSA_STARTS BLK) Here
    65407124, // quantized: mantissas mantissas-of-block (cell TAGS)
    556, // quantized: derive AhtRead
    154, // closing: put (cell BLOCK) (number 0)
    71178, // closing: put (cell AUDIO_END) Here
    1222694309795658, // closing: put (cell AFTER_AUDIO) (Minus (cell FRAME_END) AUDIO_END)
    600370728474666, // closing: put (cell AFTER_AUXDATAE) (Less 17 1 (cell FRAME_END))
    9895730550605, // closing: reject (Under (cell AFTER_AUDIO) (Word 18)) 30
    18842151622477, // closing: reject_at (Under (cell AFTER_AUDIO) (Word 34)) 31 AFTER_AUXDATAE
    637754190879914, // closing: put (cell WIDTH) (Less 34 1 (cell AFTER_AUDIO))
    3254554418217155, // closing: span auxbits WIDTH
    73588960, // closing: element auxdatal none 14 (cell AUXDATAL)
    102130161621165, // closing: reject_at (Over (cell AUXDATAL) (held WIDTH)) 32 AFTER_AUXDATAE
    406856614876730, // closing: put (cell AUDIO_END) (Plus (cell AUDIO_END) WIDTH)
    562987333082266, // closing: put (cell WIDTH) (copy (cell FRAME_END))
    637729159273642, // closing: put (cell WIDTH) (Less 34 1 (cell WIDTH))
    101979745490445, // closing: reject (Differs (cell AUDIO_END) (held WIDTH)) 10
    143007378583966, // closing: each CH (after STRMTYP) (Fixed 3)
    722654063923469, // closing: reject (Differs (at ENDMANT CH) (Cell (at ENDMANT BLOCK))) 11
    1717986925121, // closing: element rematflg (by CH) 1 no
    66640, // closing: element crc2 none 16 no
];
